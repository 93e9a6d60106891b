//! A desk that serves connections.
ghost use Rattle.std.specs.Prelude.{◌≡◌};

use crate::database::ProgramDesk;
use fab_store::{OpenFault, Store};
use fab_wire::{Outcome, lacks_for, serve_one};
use fab_wire_base::routes::Routes;
use fab_wire_deadlines::bounds::Bounded;
use fab_wire_log::Shown;
use fab_wire_serving::{Forgets, Server};
use fab_wire_streams::counted::Counted;
use std::alloc::Global;
use std::io::{Read, Write};

/// A desk over a store, where its memory comes from, and the routes by which it is asked.
#[derive(Drop)]
pub struct Front<S: Store<Global>> {
    /// Where its memory comes from.
    pub alloc: Global,
    /// The routes.
    pub routes: Routes,
    /// The desk.
    pub desk: ProgramDesk<S>,
}

impl<S: Store<Global>> Server for Front<S> {
    type Store = S;

    type Fault = OpenFault;

    type Outcome = Outcome;

    ghost use Rattle.fab_program_desks.specs.Fronts.{is_halted_desk, IsWholeDesk, LacksDesk, ServesDesk, ReleasesDesk, ReopensDesk, RefusesDesk};
    ghost use Rattle.fab_wire_log.specs.Shown.{shown_text};
    ghost use Rattle.fab_wire.specs.Telling.{outcome_text};

    ghost is_halted = { λ f. is_halted_desk f.desk };

    ghost serves = { λ f moment before after outcome g. ServesDesk S.Store f.desk moment before after outcome g.desk };

    ghost shows = { outcome_text };

    ghost is_whole = { λ f bytes. IsWholeDesk f.desk bytes };

    ghost lacking = { λ f bytes size. LacksDesk f.desk bytes size };

    ghost releases = { λ f g. ReleasesDesk f.desk g.desk };

    ghost reopens = { λ f store g. ReopensDesk S.Store f.desk store g.desk };

    ghost refuses = { λ f store fault. RefusesDesk S.Store store fault };

    fn lacks(&self, bytes: &[u8]) -> Option<usize> {
        lacks_for(&self.routes, &self.desk, bytes)
    }

    fn halted(&self) -> bool {
        self.desk.halted()
    }

    fn release(&mut self) -> Option<S> {
        self.desk.release()
    }

    fn reopen(&mut self, store: S) -> Result<(), (OpenFault, S)> {
        self.desk.reopen(store)
    }

    fn serve_one<R: Read + Bounded, W: Write + Bounded>(
        &mut self,
        moment: u64,
        reader: &mut Counted<R>,
        writer: &mut Counted<W>,
    ) -> Outcome {
        serve_one(
            self.alloc,
            self.alloc,
            &self.routes,
            &mut self.desk,
            moment,
            reader,
            writer,
        )
    }

    fn shown(outcome: &Outcome) -> Shown
        ensures { shown_text result ≡ outcome_text outcome.now }
    {
        match outcome {
            Outcome::Answered(status) => Shown::Status(*status),
            Outcome::Unsent => Shown::Word("unsent"),
            Outcome::ReadFailed => Shown::Word("read-failed"),
            Outcome::Empty => Shown::Word("empty"),
        }
    }
}

impl<S: Store<Global>> Forgets for Front<S> {
    ghost use Rattle.fab_program_desks.specs.FrontLaws.{forgets_desk};

    ghost forgets = { λ old moment input sent until after outcome new served. forgets_desk _ old.desk moment input sent until after outcome new.desk served };
}
