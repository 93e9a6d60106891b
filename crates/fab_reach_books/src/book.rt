//! Books of paths: what is kept of a world, so that the next can be compared with it.
ghost use Rattle.std.specs.Prelude.{◌≡◌, ◌↔◌, ℕ, false, IsTrue, IfOk, OnOk, OnErr};
ghost use Rattle.fab_reach_base.specs.Books.{IsDelta, AreReached};
ghost use Rattle.fab_reach_base.specs.Limits.{MoreThan, most_paths};
ghost use Rattle.fab_reach_base.specs.Orders.{IsListOf};
ghost use Rattle.fab_reach_base.specs.Reach.{Reaches, ReachesFrom};
ghost use Rattle.fab_reach_base.specs.Records.{Records};
ghost use Rattle.fab_reach_base.specs.Serving.{IsServing};
ghost use Rattle.fab_reach_base.specs.Views.{seen};
ghost use Rattle.fab_reach_base.specs.declared.path.Path.{Path};
ghost use Rattle.fab_reach_books.specs.Rows.{IsRowDiff};

use crate::differing::row_diff;
use crate::row::RowDiff;
use crate::sight::{Sight, ViewSight};
use fab_names::Name;
use fab_reach_base::{Delta, Path, View};
use std::alloc::{AllocError, Allocator};

/// A book: it stands at a world, and its content is the paths of that world. It learns of the next world
/// by the rows that differ, and by asking about pairs.
pub trait PathBook<A: Allocator + Copy>: Sized + Drop {
    /// A step that is ready: all memory for it is taken.
    type Ready: Drop;

    // The book stands at the world.
    ghost stands: { Self → Records → Type 0 };

    // The content of the book.
    ghost content: { Self → Path → Type 0 };

    // The book stands at the first world, and the step leads it to the second.
    ghost leads: { Self → Self.Ready → Records → Records → Type 0 };

    // How many questions its steps have asked.
    ghost count: { Self → ℕ };

    // A step between these worlds may raise the count of a sight so, from the one number to the other, and
    // the book's own count beside it.
    ghost counts: { Records → Records → ℕ → ℕ → ℕ → ℕ → Type 0 };

    // A step between these worlds may raise the count of a sight so, also where it is refused.
    ghost limits: { Records → Records → ℕ → ℕ → Type 0 };

    // A step between these worlds may raise the book's count so.
    ghost bounds: { Records → Records → ℕ → ℕ → Type 0 };

    /// A book that stands at the world, and has asked nothing.
    ///
    /// # Errors
    /// `AllocError` where there is no memory.
    fn open(alloc: A, view: &View<'_, A>) -> Result<Self, AllocError>
        requires { IsServing (seen view.now) }
        ensures stands { IfOk result (λ book. stands book (seen view.now)) }
        ensures new { IfOk result (λ book. count book ≡ 0) };

    /// The allocator that it takes memory from.
    fn allocator(&self) -> A;

    /// How many questions its steps have asked. At 18446744073709551615 the count stays.
    fn asked(&self) -> u64
        ensures { result ≡ count self.now };

    /// Makes a step ready to the world that is seen: the difference is from the world before to it. The
    /// book stands where it stood, also where it is refused.
    ///
    /// # Errors
    /// `AllocError` where there is no memory: the book's count is as it was.
    fn prepare<S: Sight<A>>(
        &mut self,
        before: &View<'_, A>,
        diff: &RowDiff<A>,
        sight: &mut S,
    ) -> Result<Self::Ready, AllocError>
        requires stands { stands self.old (seen before.now) }
        requires sound { IsServing (S.world sight.old) }
        requires diff { IsRowDiff (seen before.now) (S.world sight.old) diff.now.gone.items diff.now.come.items }
        ensures stays { stands self.new (seen before.now) }
        ensures same { S.world sight.new ≡ S.world sight.old }
        ensures leads { IfOk result (λ ready. leads self.new ready (seen before.now) (S.world sight.old)) }
        ensures counts { OnOk result (counts (seen before.now) (S.world sight.old) (S.count sight.old) (S.count sight.new) (count self.old) (count self.new)) }
        ensures limits { limits (seen before.now) (S.world sight.old) (S.count sight.old) (S.count sight.new) }
        ensures uncounted { OnErr result (count self.new ≡ count self.old) };

    /// The lists of a step.
    fn delta<'a>(&self, ready: &'a Self::Ready) -> &'a Delta<A>
        ensures { (w v : Records) → leads self.now ready.now w v → IsDelta w v result.now.gained.items result.now.lost.items };

    /// Whether there are no more than `MOST_PATHS` paths after a step.
    fn has_few(&self, ready: &Self::Ready) -> bool
        ensures few { (w v : Records) → leads self.now ready.now w v → (IsTrue result ↔ ¬ MoreThan most_paths (Reaches v)) }
        ensures many { (w v : Records) → leads self.now ready.now w v → result ≡ false → MoreThan most_paths (Reaches v) };

    /// Takes the step, and hands out its lists: the book stands at the world after it. It takes no
    /// memory, and asks nothing.
    fn adopt(&mut self, ready: Self::Ready) -> Delta<A>
        ensures stands { (w v : Records) → leads self.old ready w v → stands self.new v }
        ensures delta { (w v : Records) → leads self.old ready w v → IsDelta w v result.gained.items result.lost.items }
        ensures uncounted { count self.new ≡ count self.old };

    /// The paths of the content whose initiator the host holds in the world where the book stands,
    /// each once, in order.
    ///
    /// # Errors
    /// `AllocError` where there is no memory.
    fn of_host(&self, host: &Name) -> Result<Vec<Path, A>, AllocError>
        ensures { (w : Records) → stands self.now w → IfOk result (λ paths. IsListOf (ReachesFrom w host.now) paths.items) };

    // A sight of which nothing was asked before keeps the bounds.
    ghost metered: { (w v : Records) (n a b : ℕ) → counts w v 0 n a b → bounds w v a b };

    // No step is needed to where the book stands.
    ghost still: { (w : Records) (n : ℕ) → bounds w w n n };

    ghost reached: { (book : Self) (w : Records) → stands book w → AreReached w (content book) };

    /// The whole step, to the world after it: the difference of the two is found by a walk through both.
    ///
    /// # Errors
    /// `AllocError` where there is no memory: the book stands where it stood, and its count is as it was.
    final fn advance(
        &mut self,
        before: &View<'_, A>,
        after: &View<'_, A>,
    ) -> Result<Delta<A>, AllocError>
        requires stands { stands self.old (seen before.now) }
        requires sound { IsServing (seen after.now) }
        ensures ok { OnOk result (stands self.new (seen after.now)) }
        ensures delta { IfOk result (λ delta. IsDelta (seen before.now) (seen after.now) delta.gained.items delta.lost.items) }
        ensures bounds { OnOk result (bounds (seen before.now) (seen after.now) (count self.old) (count self.new)) }
        ensures err { OnErr result (stands self.new (seen before.now)) }
        ensures uncounted { OnErr result (count self.new ≡ count self.old) }
    {
        let alloc = self.allocator();
        let diff = row_diff(alloc, before, after)?;
        let mut sight = ViewSight::new(alloc, *after);
        let ready = self.prepare(before, &diff, &mut sight)?;
        Ok(self.adopt(ready))
    }
}
