// The way along the lists: CDR and GDR, a list from its head to the wanted record.
ghost use Rattle.std.specs.Prelude.{◌≡◌, true, ◌+◌, ◌≤◌, ◌<◌, length, IfOk};
ghost use Rattle.records.specs.Opening.{gdr_at, body_of};
ghost use Rattle.lookup.specs.Lists.{opened, allowance, lands_on, is_entry_kind, vdr_kept, rule_kept, meets, wanted_at, over_of, last_link, sought, head_of_list, place_way, kind_among, kind_asked, variable_way, attribute_way, head_of_entries, entry_way};
ghost use Rattle.lookup.specs.Bounds.{Opened};

use crate::refusals::Refusal;
use format::{asked, fields};
use records::files::File;
use records::{attributes, layout, opening};
use variables::vdr;

// Which record of a list is wanted: the one at a place, or the first of an entry number.
#[derive(Clone, Copy, Debug, PartialEq, Eq)]
pub enum Wanted {
    Place(u64),
    Number(i64),
}

// The record that a way has found, and how many more may be met.
#[derive(Clone, Copy, Debug, PartialEq, Eq)]
pub struct Met {
    pub at: u32,
    pub left: u32,
}

// The file opens.
#[tactic(auto, using(crate::proofs::Passed::passed, crate::proofs::Opening::opens_inside), unfolding(crate::specs::Lists::opened))]
pub fn opens(f: &[u8]) -> bool
    ensures told { result ≡ opened f.now }
    ensures fits { result ≡ true → Opened f.now (body_of f.now) }
{
    if opening::too_long(f) {
        return false;
    }
    opening::opens(f).is_ok()
}

// The record at an offset lies before the file's end, at 8 or above, and has a type.
#[tactic(auto, unfolding(crate::specs::Lists::lands_on))]
pub fn lands(f: &[u8], t: u32, o: u32) -> bool
    ensures { result ≡ lands_on f.now t o }
{
    let at = o as usize;
    let end = fields::end(f);
    if o < 8 {
        return false;
    }
    if end < at + 8 {
        return false;
    }
    fields::is_nat(f, at + layout::TYPE, t) & (at + fields::nat_at(f, at) as usize <= end)
}

// A record type is that of an entry. Types are numbers here and in all that hands one to seek, which is public and
// promises its answer for every number.
pub fn is_entry(t: u32) -> bool
    ensures { result ≡ is_entry_kind t }
{
    matches!(t, 5 | 9)
}

// The VDR of a kind at an offset keeps its rule, and its values are not compressed.
#[tactic(auto, using(crate::proofs::Passed::shape_passed, variables::proofs::Rule::vdr_inside, records::proofs::Told::number_some), unfolding(crate::specs::Lists::vdr_kept))]
fn vdr_kept(f: &[u8], t: u32, o: u32) -> bool
    ensures told { result ≡ vdr_kept f.now t o }
    ensures lies { result ≡ true → o + 128 ≤ length f.now }
{
    match vdr::carried(f, o) {
        Ok(()) => vdr::variable_at(f, t, o).is_ok(),
        Err(_) => false,
    }
}

// The record of a type at an offset keeps its rule.
#[tactic(auto, using(crate::proofs::Passed::passed, crate::proofs::Passed::if_passed), unfolding(crate::specs::Lists::rule_kept))]
fn rule_kept(f: &[u8], t: u32, o: u32) -> bool
    ensures told { result ≡ rule_kept f.now t o }
    ensures lies { result ≡ true → o + 48 ≤ length f.now }
{
    match t {
        4 => attributes::adr(f, o).is_ok(),
        _ if is_entry(t) => attributes::aedr(f, o).is_ok(),
        _ => vdr_kept(f, t, o),
    }
}

// The record of a type at an offset can be met.
#[tactic(auto, unfolding(crate::specs::Lists::meets))]
fn is_met(f: &[u8], t: u32, o: u32) -> bool
    ensures told { result ≡ meets f.now t o }
    ensures lies { result ≡ true → o + 48 ≤ length f.now }
{
    if !lands(f, t, o) {
        return false;
    }
    rule_kept(f, t, o)
}

// The record at an offset, at a place of its list, is the wanted one.
fn is_wanted(f: &[u8], w: Wanted, i: u32, o: u32) -> bool
    requires { o + 24 ≤ length f.now }
    ensures { result ≡ wanted_at f.now w i o }
{
    match w {
        Wanted::Place(n) => u64::from(i) == n,
        Wanted::Number(n) => fields::is_at(f, o as usize + layout::ENTRY_NUM, n),
    }
}

// Why a list of records of a type is over.
fn over(t: u32) -> Refusal
    ensures { result ≡ over_of t }
{
    if is_entry(t) {
        Refusal::NoNumber
    } else {
        Refusal::NoSuch
    }
}

// Why a list of records of a type ends at the link at an offset, where no more may be met. Bytes and the link's offset are apart here, in `seek` and in
// `last_index` of indexes.rt: `seek` goes on to another link at each turn, and a struct of the two would be built at each.
#[tactic(auto, unfolding(crate::specs::Lists::last_link))]
fn last_link(f: &[u8], t: u32, link: usize) -> Refusal
    requires { link + 4 ≤ length f.now }
    ensures { result ≡ last_link f.now t link }
{
    if fields::link_at(f, link) == 0 {
        return over(t);
    }
    Refusal::Breach
}

// A list of records of a type, from the link at an offset to the wanted record, where so many may be met.
pub fn seek(f: &[u8], t: u32, w: Wanted, link: usize, allowed: u32) -> Result<Met, Refusal>
    requires { link + 4 ≤ length f.now }
    ensures { result ≡ sought f.now t w link 0 allowed }
{
    let mut p = link;
    for i in 0..allowed {
        let o = fields::link_at(f, p);
        if o == 0 {
            return Err(over(t));
        }
        if !is_met(f, t, o) {
            return Err(Refusal::Breach);
        }
        if is_wanted(f, w, i, o) {
            return Ok(Met {
                at: o,
                left: allowed - i - 1,
            });
        }
        p = o as usize + layout::NEXT_USIZE;
    }
    Err(last_link(f, t, p))
}

// How many records may be met after the CDR and the GDR, by the length of the whole file.
#[tactic(auto, unfolding(crate::specs::Lists::allowance))]
fn allowed(f: &[u8]) -> u32
    requires { Opened f.now (body_of f.now) }
    ensures { result ≡ allowance f.now }
{
    (f.len() / 8 - 2) as u32
}

// The offset of the GDR's link to a list of records of a type.
#[tactic(auto, unfolding(records::specs::Opening::gdr_at))]
fn head_of_list(b: &[u8], t: u32) -> usize
    requires { gdr_at b.now + 60 ≤ length b.now }
    ensures told { result ≡ head_of_list b.now t }
    ensures lies { result + 4 ≤ length b.now }
{
    let g = fields::link_at(b, layout::GDR_LINK) as usize;
    match t {
        3 => g + layout::HEAD_OF_R_VARIABLES_USIZE,
        8 => g + layout::HEAD_OF_Z_VARIABLES_USIZE,
        _ => g + layout::HEAD_OF_ATTRIBUTES_USIZE,
    }
}

// The way along a list of the GDR to a place, where so many records may be met.
#[tactic(auto, using(crate::proofs::Links::place_below, crate::proofs::Links::place_at))]
fn to_place(b: &[u8], t: u32, n: i64, left: u32) -> Result<Met, Refusal>
    requires { gdr_at b.now + 60 ≤ length b.now }
    ensures { result ≡ place_way b.now t n left }
{
    let place = asked::natural(n).ok_or(Refusal::NoSuch)?;
    seek(b, t, Wanted::Place(place), head_of_list(b, t), left)
}

// The record type of a kind among two.
#[tactic(auto, using(crate::proofs::Asked::is_kind, crate::proofs::Asked::no_kind))]
pub fn kind_among(a: u32, b: u32, kind: i64) -> u32
    requires { (a < 2147483648) × (b < 2147483648) }
    ensures told { result ≡ kind_among a b kind }
    ensures small { result < 2147483648 }
{
    if kind == i64::from(a) { a } else { b }
}

// The record type that a question asks for, of two, or why it is refused before a list is followed.
fn kind_asked(f: &[u8], a: u32, b: u32, kind: i64) -> Result<u32, Refusal>
    requires { (a < 2147483648) × (b < 2147483648) }
    ensures told { result ≡ kind_asked f.now a b kind }
    ensures fits { IfOk result (λ _. Opened f.now (body_of f.now)) }
{
    if !opens(f) {
        return Err(Refusal::Breach);
    }
    let t = kind_among(a, b, kind);
    if kind != i64::from(t) {
        return Err(Refusal::NoSuch);
    }
    Ok(t)
}

// The way to a variable, by its kind, 3 or 8, and its number.
pub fn to_variable(f: &File, kind: i64, number: i64) -> Result<Met, Refusal>
    ensures { result ≡ variable_way f.now.bytes.now kind number }
{
    let t = kind_asked(f.bytes, 3, 8, kind)?;
    to_place(f.body, t, number, allowed(f.bytes))
}

// The way to an attribute, by its number.
#[tactic(auto, using(crate::proofs::Opening::opened_part), unfolding(crate::specs::Lists::attribute_way))]
pub fn to_attribute(f: &File, number: i64) -> Result<Met, Refusal>
    ensures { result ≡ attribute_way f.now.bytes.now number }
{
    if !opens(f.bytes) {
        return Err(Refusal::Breach);
    }
    to_place(f.body, 4, number, allowed(f.bytes))
}

// The offset of the link to the entries of a kind, of the ADR at an offset.
fn head_of_entries(a: u32, kind: u32) -> usize
    ensures told { result ≡ head_of_entries a kind }
    ensures near { result ≤ a + 36 }
{
    let at = a as usize;
    match kind {
        9 => at + layout::HEAD_OF_Z_ENTRIES_USIZE,
        _ => at + layout::HEAD_OF_GR_ENTRIES_USIZE,
    }
}

// The way to an entry of an attribute, by its kind, 5 or 9: along the attributes, and then along the attribute's entries.
pub fn to_entry(f: &File, attribute: i64, kind: i64, w: Wanted) -> Result<Met, Refusal>
    ensures { result ≡ entry_way f.now.bytes.now attribute kind w }
{
    let t = kind_asked(f.bytes, 5, 9, kind)?;
    let adr = to_place(f.body, 4, attribute, allowed(f.bytes))?;
    seek(f.body, t, w, head_of_entries(adr.at, t), adr.left)
}
