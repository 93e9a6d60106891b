//! Lists of what other crates make, as JSON: as `Parts` of the bodies of answers, with a trait of this crate.
ghost use Rattle.std.specs.Prelude.{length};
ghost use Rattle.serde_json.specs.Data.{Data};
ghost use Rattle.serde_json.specs.Written.{comma_if};
ghost use Rattle.fab_wire_streams.specs.Taking.{Takes};
ghost use Rattle.fab_wire_streams.specs.JsonText.{json_text};
ghost use Rattle.fab_wire_streams.specs.Pieces.{item_json};
ghost use Rattle.fab_wire_streams.specs.Values.{list_data};

use fab_wire_streams::sink::Sink;
use fab_wire_streams::streams::WriteFailed;
use fab_wire_streams::values::Json;

/// What stands in a list of what a caller who looks is told.
pub trait Piece {
    /// Its value.
    ghost piece_data: { Self → Data };

    /// Puts the compact text of the value. A failure of the sink ends it.
    fn put_piece<S: Sink>(&self, sink: &mut S) -> Result<(), WriteFailed>
        ensures { Takes S.took S.cut sink.old (json_text (piece_data self.now)) sink.new result };
}

/// An array of the pieces of a list, in its order.
#[derive(Clone, Copy)]
pub struct Pieces<'a, T>(pub &'a [T]);

impl<T: Piece> Json for Pieces<'_, T> {
    ghost value = { λ pieces. list_data T.piece_data pieces.0.now };

    ghost most = { λ pieces. length (json_text (list_data T.piece_data pieces.0.now)) };

    fn put<S: Sink>(&self, sink: &mut S) -> Result<(), WriteFailed> {
        let Ok(()) = sink.take(b"[") else {
            return Err(WriteFailed);
        };
        let mut later = false;
        for part in self.0 {
            let Ok(()) = put_next(sink, later, part) else {
                return Err(WriteFailed);
            };
            later = true;
        }
        sink.take(b"]")
    }
}

/// Puts a piece, after others or as the first.
fn put_next<S: Sink, T: Piece>(sink: &mut S, later: bool, part: &T) -> Result<(), WriteFailed>
    ensures { Takes S.took S.cut sink.old (item_json later (T.piece_data part.now)) sink.new result }
{
    let Ok(()) = put_comma(sink, later) else {
        return Err(WriteFailed);
    };
    part.put_piece(sink)
}

/// Puts a comma, where something stands before.
fn put_comma<S: Sink>(sink: &mut S, later: bool) -> Result<(), WriteFailed>
    ensures { Takes S.took S.cut sink.old (comma_if later) sink.new result }
{
    if later { sink.take(b",") } else { Ok(()) }
}
