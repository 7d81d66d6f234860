// A step of the walk.
ghost use Rattle.std.specs.Prelude.{◌≡◌};
ghost use Rattle.variables.specs.Vdr.{variable_told};
ghost use Rattle.walk.specs.Walk.{walk_step_by};
ghost use Rattle.walk.specs.Bounds.{Within, SmallLevel};
ghost use Rattle.walk.specs.Bounds.{NextVariable};

use crate::attrs::{AttributeList, EntryList, UnusedList};
use crate::index::{AtEntry, IndexChain};
use crate::positions::{Level, Step, Walk};
use crate::vars::VariableList;
use crate::{index, lists, vars};
use records::breaches::Breach;
use variables::vdr::Shape;

// What the next link of the walk says, with the variable that was looked at; near is the level above, and room says whether there may be
// one more below.
#[tactic(auto, unfolding(crate::specs::Walk::walk_step_by))]
pub fn step(f: &[u8], w: Walk, v: Result<Shape, Breach>, near: Level, room: bool) -> Step
    requires { Within w × NextVariable f.now (variable_told v) w × SmallLevel near }
    ensures { result ≡ walk_step_by f.now near room w }
{
    match w {
        Walk::Start => vars::start_step(f),
        Walk::Vars {
            kind,
            link,
            count,
            greatest,
        } => {
            let list = VariableList {
                kind,
                count,
                greatest,
                linked: v,
            };
            lists::list_step(f, link, list)
        }
        Walk::Chain {
            var,
            link,
            before,
            floor,
            covered,
        } => index::chain_step(f, near, link, IndexChain::of(var, before, floor, covered)),
        Walk::Entry {
            var,
            vxr,
            entry: i,
            floor,
            covered,
        } => index::entry_step(f, near, room, AtEntry::of(var, vxr, i, covered), v, floor),
        Walk::Attrs { link, count } => lists::list_step(f, link, AttributeList { count }),
        Walk::Entries {
            kind,
            adr,
            place,
            link,
            count,
            greatest,
        } => lists::list_step(f, link, EntryList::of(kind, adr, place, count, greatest)),
        Walk::Unused { link, before } => lists::list_step(f, link, UnusedList { before }),
    }
}
