// The record that holds the link where the walk stands.
ghost use Rattle.std.specs.Prelude.{◌≡◌, ◌-◌};
ghost use Rattle.faults.specs.Holder.{link_in, variables_head, entries_head, holder_of};

use records::layout;
use walk::positions::Walk;

// Where a link stands in its record: the head of a list of which none is taken yet, or a next.
fn link_in(taken: u32, head: u32) -> u32
    ensures { result ≡ link_in taken head }
{
    if taken == 0 { head } else { layout::NEXT }
}

// The record in which a link stands; a link too low for that, which only numbers made up have, gives 0.
fn standing(link: u32, taken: u32, head: u32) -> u32
    ensures { result ≡ link - link_in taken head }
{
    link.saturating_sub(link_in(taken, head))
}

// Where the head of the list of variables of a kind stands in the GDR. One function for this and the next would have the kind and both
// offsets as parameters, and say no more than its own `if`.
// The kind is a number, as in Walk; with one number told apart from all others an `if` is as plain as a `match`.
fn head_of_variables(kind: u32) -> u32
    ensures { result ≡ variables_head kind }
{
    if kind == 8 {
        layout::HEAD_OF_Z_VARIABLES
    } else {
        layout::HEAD_OF_R_VARIABLES
    }
}

// Where the head of an attribute's list of entries of a kind stands in its ADR.
fn head_of_entries(kind: u32) -> u32
    ensures { result ≡ entries_head kind }
{
    if kind == 9 {
        layout::HEAD_OF_Z_ENTRIES
    } else {
        layout::HEAD_OF_GR_ENTRIES
    }
}

// The record that holds the link where the walk stands.
#[tactic(auto, unfolding(crate::specs::Holder::holder_of))]
pub fn holder(w: Walk) -> u32
    ensures { result ≡ holder_of w }
{
    match w {
        Walk::Start => 8,
        Walk::Vars {
            kind,
            link,
            count,
            ..
        } => standing(link, count, head_of_variables(kind)),
        Walk::Chain { link, before, .. } => standing(link, before, layout::HEAD_OF_INDEX),
        Walk::Entry { vxr, .. } => vxr,
        Walk::Attrs { link, count } => standing(link, count, layout::HEAD_OF_ATTRIBUTES),
        Walk::Entries {
            kind,
            link,
            count,
            ..
        } => standing(link, count, head_of_entries(kind)),
        Walk::Unused { link, before } => standing(link, before, layout::HEAD_OF_UNUSED),
    }
}
