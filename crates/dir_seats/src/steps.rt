//! The steps of the writer: shows what was appended, and tells a reader the whole of what is shown.
ghost use Rattle.std.specs.Prelude.{◌≡◌, [], drop, true, IfOk, MatchResult};
ghost use Rattle.left_right.specs.Sides.{view};
ghost use Rattle.dir_seats.specs.Lists.{IsBeginning};
ghost use Rattle.dir_seats.specs.Showing.{latest};

use crate::rule::{Learned, ShownReader, ShownWriter, Sight, Whole};
use core::mem::replace_with;
use std::alloc::AllocError;
use std::sync::Wait;

/// Shows the latest version that was appended. It waits for the readers that still hold the version before what is
/// shown.
pub fn show<R: Wait>(writer: ShownWriter, rt: &R) -> (ShownWriter, Result<(), AllocError>)
    requires { IsBeginning writer.desk.shown.value (latest writer.desk.shown.value
        (drop writer.behind writer.log.items)) }
    ensures { MatchResult result.1
        (λ _. (result.0.desk.shown.value ≡ latest writer.desk.shown.value (drop writer.behind writer.log.items))
        × (drop result.0.behind result.0.log.items ≡ [])
        × (view result.0.desk.place ≡ (true, result.0.desk.shown.value)))
        (λ _. (result.0.desk.shown.value ≡ writer.desk.shown.value) × (drop result.0.behind result.0.log.items ≡
        drop writer.behind writer.log.items) × (view result.0.desk.place ≡ view writer.desk.place)) }
{
    writer.publish_as::<Sight, R>(rt)
}

/// The same, where the writer stands.
pub fn show_in_place<R: Wait>(writer: &mut ShownWriter, rt: &R) -> Result<(), AllocError>
    requires { IsBeginning writer.old.desk.shown.value (latest writer.old.desk.shown.value
        (drop writer.old.behind writer.old.log.items)) }
    ensures { MatchResult result
        (λ _. (writer.new.desk.shown.value ≡ latest writer.old.desk.shown.value
        (drop writer.old.behind writer.old.log.items)) × (drop writer.new.behind writer.new.log.items ≡ [])
        × (view writer.new.desk.place ≡ (true, writer.new.desk.shown.value)))
        (λ _. (writer.new.desk.shown.value ≡ writer.old.desk.shown.value)
        × (drop writer.new.behind writer.new.log.items ≡ drop writer.old.behind writer.old.log.items)
        × (view writer.new.desk.place ≡ view writer.old.desk.place)) }
{
    replace_with(writer, rt, |writer, rt| show(writer, rt))
}

/// A reader that knows what the writer knows. It is refused where each place for a reader is taken.
pub fn tell(writer: &mut ShownWriter) -> Result<ShownReader, AllocError>
    ensures told { IfOk result (λ reader. view reader.place ≡ view writer.old.desk.place) }
    ensures kept { (writer.new.desk.shown ≡ writer.old.desk.shown) × (drop writer.new.behind writer.new.log.items ≡
        drop writer.old.behind writer.old.log.items) × (view writer.new.desk.place ≡ view writer.old.desk.place) }
{
    let mut reader = writer.factory().reader()?;
    reader.learn::<Learned>(writer.tell::<Whole>());
    Ok(reader)
}
