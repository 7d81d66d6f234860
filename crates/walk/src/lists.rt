// The lists that the walk goes along, each by what its end and its records come to, and the step at a link of one.
ghost use Rattle.std.specs.Prelude.{◌≡◌, ◌+◌, ◌≤◌, ◌<◌, List, ℕ, ℤ, length, IfOk};
ghost use Rattle.format.specs.Fields.{end_of, link_at};
ghost use Rattle.records.specs.Breaches.{told};
ghost use Rattle.walk.specs.Walk.{Listing, claim, list_step};

use crate::links;
use crate::positions::{Link, Step, Walk};
use records::breaches::{Breach, told};

// A list, with what is known of it at one of its links.
pub trait Listing: Copy {
    // What its end and its records come to in a file.
    ghost listing: { List ℕ → Self → Listing };

    // The bytes that a record of it has at least.
    ghost size: { ℕ };

    // What it already says of the record at an offset.
    ghost Matches: { List ℕ → Self → ℕ → Type 0 } = { λ _ _ _. Unit {0} };

    // What its end comes to.
    fn over(self, f: &[u8]) -> Step
        ensures { result ≡ (listing f.now self).over };

    // The type of its records. A number: type_number takes every one, and that of an unused record is -1.
    fn typed(self) -> i64
        ensures { (f : List ℕ) → result ≡ (listing f self).typed };

    // A record keeps its rule and stands in its place.
    fn number(self, f: &[u8], o: u32) -> Result<(), Breach>
        requires { Matches f.now self o }
        ensures told { told result ≡ (listing f.now self).number o }
        ensures fits { IfOk result (λ _. o + size ≤ length f.now) };

    // Where the walk goes on in a record that keeps its rule.
    fn next(self, f: &[u8], o: u32) -> Walk
        requires fits { o + size ≤ length f.now }
        requires small { o < 2147483648 }
        ensures { result ≡ (listing f.now self).next o };
}

// A link to the record at an offset.
fn claim<L: Listing>(f: &[u8], list: L, o: u32) -> Step
    requires matches { L.Matches f.now list o }
    requires small { o < 2147483648 }
    ensures { result ≡ claim f.now (L.listing f.now list) o }
{
    let typed = told(links::type_number(f, o, list.typed()));
    match list.number(f, o) {
        Ok(()) => links::taken(o, typed, list.next(f, o)),
        Err(late) => links::refused(o, typed, u32::from(late)),
    }
}

// The step at a link of a list.
pub fn list_step<L: Listing>(f: &[u8], link: u32, list: L) -> Step
    requires { link + 4 ≤ end_of f.now → L.Matches f.now list (link_at f.now link) }
    ensures { result ≡ list_step f.now link (L.listing f.now list) }
{
    let l = links::link_from(f, link);
    match l {
        Link::Past => links::stopped(Breach::PastEnd),
        Link::Zero => list.over(f),
        Link::To { at } => claim(f, list, at),
    }
}
