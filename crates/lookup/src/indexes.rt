// The way through the index of a variable to the values of a record.
ghost use Rattle.std.specs.Prelude.{◌≡◌, true, ◌+◌, ◌-◌, ◌*◌, ◌≤◌, ◌<◌, length, IfOk};
ghost use Rattle.lookup.specs.Indexes.{range_covers, record_number, scanned, index_met, lower_met, lowered, last_index, indexed, lowest_of, values_met, record_at, values_named, record_way, levels_way};
ghost use Rattle.lookup.specs.Bounds.{EntryFits, ScanFits};
ghost use Rattle.records.specs.Layout.{head_of_index};
ghost use Rattle.records.specs.Tree.{levels_below};

use crate::lists;
use crate::refusals::Refusal;
use format::{asked, fields};
use records::index::Range;
use records::{index, layout};

// What the used entries of a VXR say of a record: the one that covers it; or none, and the last Last + 1.
#[derive(Clone, Copy, Debug, PartialEq, Eq)]
pub enum Scan {
    Covering(Range),
    Passed(u32),
}

// The entry that covers a record, and how many more records may be met. No ghost field EntryFits: the fact is of a record r too,
// which would stand in the struct beside an entry that is found for one r alone.
#[derive(Clone, Copy, Debug, PartialEq, Eq)]
pub struct Covered {
    pub range: Range,
    pub left: u32,
}

// The record number that is looked up of the variable whose VDR is at an offset, 0 where record variance is clear; or none. Here and below
// bytes and offset are two: to_record and to_levels are given both, and the functions below take them apart.
#[tactic(auto, using(crate::proofs::RecordNumbers::number_below, crate::proofs::RecordNumbers::number_none, crate::proofs::RecordNumbers::number_same))]
fn record_number(f: &[u8], v: u32, r: i64) -> Option<u32>
    requires { v + 48 ≤ length f.now }
    ensures { result ≡ record_number f.now v r }
{
    let most = v as usize + layout::MAX_REC;
    let n = asked::natural(r)?;
    if !fields::at_least(f, most, 0) {
        return None;
    }
    if !fields::bit(f, v as usize + layout::VAR_FLAGS, 1) {
        return Some(0);
    }
    if u64::from(fields::nat_at(f, most)) < n {
        return None;
    }
    Some(n as u32)
}

// An entry's range covers a record.
fn covers(e: Range, r: u32) -> bool
    ensures { result ≡ range_covers e r }
{
    (e.first <= r) & (r <= e.last)
}

// The used entries of the VXR at an offset, to the one that covers a record; none may end above most.
#[tactic(auto, using(crate::proofs::Scans::scan_broken, crate::proofs::Scans::scan_covering, crate::proofs::Scans::covering_fits, crate::proofs::Scans::scan_more, crate::proofs::Scans::scan_none, records::proofs::Told::number_some))]
fn scan_entries(f: &[u8], x: u32, r: u32, most: u32, used: u32, floor: u32) -> Result<Scan, Refusal>
    requires { floor ≤ 2147483648 }
    ensures told { result ≡ scanned f.now x r most used 0 floor }
    ensures fits { IfOk result (ScanFits r) }
{
    let mut lowest = floor;
    for i in 0..used {
        let e = index::entry_at(f, x, i, lowest, most)?;
        if covers(e, r) {
            return Ok(Scan::Covering(e));
        }
        lowest = e.last + 1;
    }
    Ok(Scan::Passed(lowest))
}

// The VXR at an offset can be met.
#[tactic(auto, using(crate::proofs::Passed::passed, crate::proofs::Passed::if_passed), unfolding(crate::specs::Indexes::index_met))]
fn index_met(f: &[u8], x: u32) -> bool
    ensures told { result ≡ index_met f.now x }
    ensures lies { result ≡ true → x + 20 ≤ length f.now }
{
    if !lists::lands(f, 6, x) {
        return false;
    }
    index::vxr(f, x).is_ok()
}

// Why an index chain ends at the link at an offset, where no more records may be met. `last_link` of lists.rt shares one test with it, and ends
// otherwise: with what its list gives, and this with a gap.
#[tactic(auto, unfolding(crate::specs::Indexes::last_index))]
fn last_index(f: &[u8], link: usize) -> Refusal
    requires { link + 4 ≤ length f.now }
    ensures { result ≡ last_index f.now link }
{
    if fields::link_at(f, link) == 0 {
        return Refusal::Gap;
    }
    Refusal::Breach
}

// The index chain of the variable whose VDR is at an offset, to the entry that covers a record, where so many records may be met.
fn seek_record(f: &[u8], v: u32, r: u32, allowed: u32) -> Result<Covered, Refusal>
    requires { v + 48 ≤ length f.now }
    ensures told { result ≡ indexed f.now r (head_of_index v) 0 allowed }
    ensures fits { IfOk result (λ c. EntryFits r c.range) }
{
    let mut p = v as usize + layout::HEAD_OF_INDEX_USIZE;
    let mut floor: u32 = 0;
    for left in (0..allowed).rev() {
        let x = fields::link_at(f, p);
        if x == 0 {
            return Err(Refusal::Gap);
        }
        if !index_met(f, x) {
            return Err(Refusal::Breach);
        }
        let used = fields::nat_at(f, x as usize + layout::VXR_USED);
        let s = scan_entries(f, x, r, 2147483647, used, floor)?;
        match s {
            Scan::Covering(range) => return Ok(Covered { range, left }),
            Scan::Passed(upper) => {
                floor = upper;
                p = x as usize + layout::NEXT_USIZE;
            }
        }
    }
    Err(last_index(f, p))
}

// The lower VXR at an offset can be met: it has no next.
#[tactic(auto, unfolding(crate::specs::Indexes::lower_met))]
fn lower_met(f: &[u8], x: u32) -> bool
    ensures told { result ≡ lower_met f.now x }
    ensures lies { result ≡ true → x + 20 ≤ length f.now }
{
    if !index_met(f, x) {
        return false;
    }
    fields::link_at(f, x as usize + layout::NEXT_USIZE) == 0
}

// From the entry that covers a record down to the lowest one, with so many levels left and where so many records may be met.
fn go_down(f: &[u8], r: u32, e: Range, left: u32, levels: u32) -> Result<Covered, Refusal>
    requires { EntryFits r e }
    ensures told { result ≡ lowered levels f.now r e left }
    ensures fits { IfOk result (λ c. EntryFits r c.range) }
{
    let x = e.link;
    if !index::is_index(f, x) {
        return Ok(Covered { range: e, left });
    }
    if levels == 0 {
        return Err(Refusal::Breach);
    }
    if left == 0 {
        return Err(Refusal::Breach);
    }
    if !lower_met(f, x) {
        return Err(Refusal::Breach);
    }
    let used = fields::nat_at(f, x as usize + layout::VXR_USED);
    let s = scan_entries(f, x, r, e.last, used, e.first)?;
    match s {
        Scan::Covering(d) => go_down(f, r, d, left - 1, levels - 1),
        Scan::Passed(_) => Err(Refusal::Gap),
    }
}

// From the entry of the top chain that covers a record down to the lowest one. Most entries name values, and are the lowest themselves: they
// are told apart before the lookup goes down.
#[tactic(auto, using(crate::proofs::Lowering::lowest_here))]
fn lowest(f: &[u8], r: u32, top: Covered) -> Result<Covered, Refusal>
    requires { EntryFits r top.range }
    ensures told { result ≡ lowered levels_below f.now r top.range top.left }
    ensures fits { IfOk result (λ c. EntryFits r c.range) }
{
    if !index::is_index(f, top.range.link) {
        return Ok(top);
    }
    go_down(f, r, top.range, top.left, 7)
}

// The VVR that an entry names can be met.
#[tactic(auto, using(crate::proofs::Passed::passed), unfolding(crate::specs::Indexes::values_met))]
fn values_met(f: &[u8], r: u32, bytes: u32, c: Covered) -> bool
    requires { EntryFits r c.range }
    ensures { result ≡ values_met f.now c.range bytes c.left }
{
    if c.left == 0 {
        return false;
    }
    if !lists::lands(f, 7, c.range.link) {
        return false;
    }
    index::vvr(f, c.range.link, c.range.last - c.range.first + 1, bytes).is_ok()
}

// The offset of a record in the values that an entry names.
#[tactic(auto, using(crate::proofs::Offsets::within))]
fn record_at(r: u32, e: Range, bytes: u32) -> u64
    requires { EntryFits r e }
    ensures told { result ≡ record_at e r bytes }
    ensures fits { result < 9223372036854775808 }
{
    let before = u64::from(r - e.first);
    u64::from(e.link) + layout::VALUES as u64 + before * u64::from(bytes)
}

// The values of a record that an entry names.
fn values_named(f: &[u8], r: u32, bytes: u32, c: Covered) -> Result<u64, Refusal>
    requires { EntryFits r c.range }
    ensures told { result ≡ values_named f.now r bytes c.range c.left }
    ensures fits { IfOk result (λ at. at < 9223372036854775808) }
{
    if values_met(f, r, bytes, c) {
        return Ok(record_at(r, c.range, bytes));
    }
    Err(Refusal::Breach)
}

// The way to a record of the variable whose VDR is at an offset, where so many records may be met.
pub fn to_record(f: &[u8], v: u32, bytes: u32, r: i64, left: u32) -> Result<u64, Refusal>
    requires { v + 48 ≤ length f.now }
    ensures told { result ≡ record_way f.now v bytes r left }
    ensures fits { IfOk result (λ at. at < 9223372036854775808) }
{
    let n = record_number(f, v, r).ok_or(Refusal::NoNumber)?;
    let top = seek_record(f, v, n, left)?;
    let c = lowest(f, n, top)?;
    values_named(f, n, bytes, c)
}

// How many levels the index of the variable whose VDR is at an offset has on the way to a record, where so many records may be met: each
// level below the first takes one of them. `to_record` begins with the same three calls, of which `lowest` is the long one and shared: one function of
// the three would give number, top and lowest entry, and each of the two takes another part of it.
pub fn to_levels(f: &[u8], v: u32, r: i64, left: u32) -> Result<u32, Refusal>
    requires { v + 48 ≤ length f.now }
    ensures told { result ≡ levels_way f.now v r left }
    ensures fits { IfOk result (λ n. n ≤ 8) }
{
    let n = record_number(f, v, r).ok_or(Refusal::NoNumber)?;
    let top = seek_record(f, v, n, left)?;
    let c = lowest(f, n, top)?;
    Ok(top.left - c.left + 1)
}
