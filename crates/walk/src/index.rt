// The index of a variable.
ghost use Rattle.std.specs.Prelude.{◌≡◌, ◌+◌, ◌-◌, ◌≤◌, ◌<◌, length, Ok, IfOk};
ghost use Rattle.records.specs.Bounds.{Bounds};
ghost use Rattle.records.specs.Breaches.{number_of, told};
ghost use Rattle.records.specs.Index.{entry_fault, entry_told, entry_of};
ghost use Rattle.variables.specs.Vdr.{variable_told, variable_of};
ghost use Rattle.walk.specs.Levels.{most_of};
ghost use Rattle.walk.specs.Bounds.{SmallLevel};
ghost use Rattle.walk.specs.Walk.{chain_tally, entered, lower_over, lower_next, chain_list, covers, values_number, values_step, entry_refused, lower_number, lower_step, entry_faulty, entry_step, chain_step};

use crate::lists::Listing;
use crate::positions::{Level, Link, Step, Var, Walk};
use crate::{levels, links, lists};
use format::fields;
use records::breaches::{Breach, check, told};
use records::index::Range;
use records::{index, layout, rules};
use variables::vdr::Shape;

// VXRtail is the last VXR, then MaxRec is -1 or covered.
fn chain_tally(f: &[u8], v: u32, last: u32, covered: bool) -> Result<(), Breach>
    requires { v < 2147483648 }
    ensures { told result ≡ chain_tally f.now v last covered }
{
    links::field_number(f, v + layout::TAIL_OF_INDEX, i64::from(last))?;
    let none = fields::is(f, v as usize + layout::MAX_REC, -1);
    check(none | covered, Breach::Range)
}

// Entry i of the VXR x, or its link to the next.
fn enter(f: &[u8], u: Var, x: u32, i: u32, floor: u32, covered: bool) -> Walk
    requires { (x + 20 ≤ length f.now) × (x < 2147483648) }
    ensures { result ≡ entered f.now u x i floor covered }
{
    if i < fields::nat_at(f, x as usize + layout::VXR_USED) {
        return Walk::Entry {
            var: u,
            vxr: x,
            entry: i,
            floor,
            covered,
        };
    }
    Walk::Chain {
        var: u,
        link: x + layout::NEXT,
        before: x,
        floor,
        covered,
    }
}

// A lower record is over: on to the neighbour of the entry that named it.
fn lower_over(f: &[u8], u: Var, near: Level, covered: bool) -> Step
    requires { SmallLevel near }
    ensures { result ≡ lower_over f.now u near covered }
{
    let x = near.vxr;
    if fields::end(f) < x as usize + 20 {
        return links::stopped(Breach::PastEnd);
    }
    Step::Up {
        next: enter(f, u, x, near.next, near.last + 1, covered),
    }
}

// The next of a lower record.
#[tactic(auto, unfolding(crate::specs::Walk::lower_next))]
fn lower_next(f: &[u8], u: Var, near: Level, link: u32, covered: bool) -> Step
    requires { SmallLevel near }
    ensures { result ≡ lower_next f.now u near link covered }
{
    let l = links::link_from(f, link);
    match l {
        Link::Past => links::stopped(Breach::PastEnd),
        Link::Zero => lower_over(f, u, near, covered),
        Link::To { .. } => links::stopped(Breach::Count),
    }
}

// The index chain of a variable: the VXR before or 0, the last Last + 1 or 0, MaxRec is covered.
#[derive(Clone, Copy)]
pub struct IndexChain {
    pub var: Var,
    pub before: u32,
    pub floor: u32,
    pub covered: bool,
    ghost small: { (var.vdr < 2147483648) × (var.place < 2147483648) },
}

impl IndexChain {
    // The chain of a variable so far.
    pub fn of(var: Var, before: u32, floor: u32, covered: bool) -> IndexChain
        requires { (var.vdr < 2147483648) × (var.place < 2147483648) }
        ensures var { result.var ≡ var }
        ensures numbers { (result.before ≡ before) × (result.floor ≡ floor) × (result.covered ≡ covered) }
    {
        IndexChain {
            var,
            before,
            floor,
            covered,
        }
    }
}

impl Listing for IndexChain {
    ghost listing = { λ f l. chain_list f l.var l.before l.floor l.covered };

    ghost size = { 20 };

    fn over(self, f: &[u8]) -> Step {
        let u = self.var;
        Step::Over {
            number: told(chain_tally(f, u.vdr, self.before, self.covered)),
            next: Walk::Vars {
                kind: u.kind,
                link: u.vdr + layout::NEXT,
                count: u.place + 1,
                greatest: u.greatest,
            },
        }
    }

    fn typed(self) -> i64 {
        6
    }

    fn number(self, f: &[u8], o: u32) -> Result<(), Breach> {
        index::vxr(f, o)
    }

    fn next(self, f: &[u8], o: u32) -> Walk {
        enter(f, self.var, o, 0, self.floor, self.covered)
    }
}

// A link of an index chain, or the next of a lower record.
pub fn chain_step(f: &[u8], near: Level, link: u32, chain: IndexChain) -> Step
    requires { SmallLevel near }
    ensures { result ≡ chain_step f.now near chain.var link chain.before chain.floor chain.covered }
{
    if levels::is_none(near) {
        return lists::list_step(f, link, chain);
    }
    lower_next(f, chain.var, near, link, chain.covered)
}

// MaxRec of the VDR at v lies in an entry's range.
fn is_covered(f: &[u8], v: u32, e: Range) -> bool
    requires { v + 20 ≤ length f.now }
    ensures { result ≡ covers f.now v (entry_told (Ok e)) }
{
    let most = fields::nat_at(f, v as usize + layout::MAX_REC);
    fields::at_least(f, v as usize + layout::MAX_REC, 0) & ((e.first <= most) & (most <= e.last))
}

// The VVR's own size, the VDR's rule, then the VVR's.
fn values_number(f: &[u8], v: Result<Shape, Breach>, e: Range) -> Result<(), Breach>
    requires range { (e.first ≤ e.last) × (e.last < 2147483648) }
    requires bytes { (variable_told v).bytes ≤ 2147483648 }
    ensures told { told result ≡ values_number f.now (variable_told v) (entry_told (Ok e)) }
    ensures fits { IfOk result (λ _. (variable_told v).fault ≡ 0) }
{
    rules::reach(f, e.link, 8)?;
    let shape = v?;
    index::vvr(f, e.link, e.last - e.first + 1, shape.bytes as u32)
}

// The VXR's rule, then a lower record has no next.
fn lower_number(f: &[u8], o: u32) -> Result<(), Breach>
    ensures told { told result ≡ lower_number f.now o }
    ensures fits { IfOk result (λ _. o + 20 ≤ length f.now) }
{
    index::vxr(f, o)?;
    let last = fields::is_nat(f, o as usize + layout::NEXT_USIZE, 0);
    check(last, Breach::Count)
}

// An entry of an index record: the record, the entry's place in it, and whether MaxRec is covered before it.
#[derive(Clone, Copy)]
pub struct AtEntry {
    pub var: Var,
    pub vxr: u32,
    pub entry: u32,
    pub covered: bool,
    ghost small: { (vxr < 2147483648) × (entry < 2147483648) },
}

impl AtEntry {
    // An entry of the index of a variable.
    pub fn of(var: Var, vxr: u32, entry: u32, covered: bool) -> AtEntry
        requires { (vxr < 2147483648) × (entry < 2147483648) }
        ensures var { result.var ≡ var }
        ensures numbers { (result.vxr ≡ vxr) × (result.entry ≡ entry) × (result.covered ≡ covered) }
    {
        AtEntry {
            var,
            vxr,
            entry,
            covered,
        }
    }

    // It names values of the variable v.
    fn values(self, f: &[u8], v: Result<Shape, Breach>, e: Range) -> Step
        requires known { variable_told v ≡ variable_of f.now self.var.kind self.var.vdr }
        requires bounds { Bounds f.now self.vxr (entry_told (Ok e)) }
        ensures { result ≡ values_step f.now self.var self.vxr self.entry self.covered (entry_told (Ok e)) }
    {
        let typed = told(links::type_number(f, e.link, 7));
        if let Err(late) = values_number(f, v, e) {
            return links::refused(e.link, typed, u32::from(late));
        }
        let covered = self.covered | is_covered(f, self.var.vdr, e);
        let next = enter(f, self.var, self.vxr, self.entry + 1, e.last + 1, covered);
        links::taken(e.link, typed, next)
    }

    // It names an index record; where room, there may be one more below.
    fn lower(self, f: &[u8], room: bool, e: Range) -> Step
        requires { Bounds f.now self.vxr (entry_told (Ok e)) }
        ensures { result ≡ lower_step f.now self.var self.vxr self.entry self.covered room (entry_told (Ok e)) }
    {
        let after = self.entry + 1;
        let typed = told(check(room, Breach::Depth));
        if let Err(late) = lower_number(f, e.link) {
            return links::refused(e.link, typed, u32::from(late));
        }
        Step::Down {
            target: e.link,
            typed,
            next: enter(f, self.var, e.link, 0, e.first, self.covered),
            level: Level {
                vxr: self.vxr,
                next: after,
                last: e.last,
            },
        }
    }
}

// An entry whose own range refuses it: it names nothing, and its other numbers count no more.
fn entry_refused(early: Breach, typed: Result<(), Breach>, late: Result<(), Breach>) -> Step
    ensures { result ≡ entry_refused (entry_fault (number_of early)) (told typed) (told late) }
{
    Step::Take {
        early: u32::from(early),
        target: 0,
        typed: told(typed),
        late: told(late),
        next: Walk::Start,
    }
}

// An entry whose own range refuses it, of the variable v: all its numbers are taken as 0, and the record at 0 is judged as what it would
// name, a lower record or values.
#[tactic(auto, unfolding(crate::specs::Walk::values_number))]
fn entry_faulty(f: &[u8], v: Result<Shape, Breach>, room: bool, early: Breach) -> Step
    requires { (variable_told v).bytes ≤ 2147483648 }
    ensures { result ≡ entry_faulty f.now (variable_told v) room (entry_fault (number_of early)) }
{
    let e = Range {
        first: 0,
        last: 0,
        link: 0,
    };
    if index::is_index(f, e.link) {
        return entry_refused(early, check(room, Breach::Depth), lower_number(f, e.link));
    }
    let typed = links::type_number(f, e.link, 7);
    entry_refused(early, typed, values_number(f, v, e))
}

// An entry of an index record, of the variable v.
pub fn entry_step(
    f: &[u8],
    near: Level,
    room: bool,
    at: AtEntry,
    v: Result<Shape, Breach>,
    floor: u32,
) -> Step
    requires { variable_told v ≡ variable_of f.now at.var.kind at.var.vdr }
    ensures { result ≡ entry_step f.now at.var at.vxr at.entry at.covered room (entry_of f.now at.vxr at.entry floor (most_of near)) }
{
    match index::entry_at(f, at.vxr, at.entry, floor, levels::most_of(near)) {
        Ok(e) if index::is_index(f, e.link) => at.lower(f, room, e),
        Ok(e) => at.values(f, v, e),
        Err(early) => entry_faulty(f, v, room, early),
    }
}
