// Where the walk stands, and what a step of it finds.

// The variable whose index is walked: its kind, its VDR, its place in the list of its kind, and the greatest MaxRec + 1 of
// that list up to it. Kinds are record types, as numbers here and below: settle and left_at of checker take every walk, also of a kind that is none.
#[derive(Clone, Copy, Debug, PartialEq, Eq)]
pub struct Var {
    pub kind: u32,
    pub vdr: u32,
    pub place: u32,
    pub greatest: u32,
}

// The link that is taken next.
#[derive(Clone, Copy, Debug, PartialEq, Eq)]
pub enum Walk {
    // The CDR's link to the GDR.
    Start,
    // A link of the list of variables of a kind: where it stands, VDRs so far, greatest MaxRec + 1.
    Vars {
        kind: u32,
        link: u32,
        count: u32,
        greatest: u32,
    },
    // A link of an index chain, or the next of a lower VXR: where it stands, the VXR before or 0, the last Last + 1 or 0, MaxRec is
    // covered.
    Chain {
        var: Var,
        link: u32,
        before: u32,
        floor: u32,
        covered: bool,
    },
    // An entry of an index record, of the top chain or a lower one.
    Entry {
        var: Var,
        vxr: u32,
        entry: u32,
        floor: u32,
        covered: bool,
    },
    // A link of the list of attributes: where it stands, ADRs so far.
    Attrs {
        link: u32,
        count: u32,
    },
    // A link of an attribute's list of entries of a kind: the ADR, its place in its list, where the link stands, AEDRs so far,
    // greatest entry number + 1.
    Entries {
        kind: u32,
        adr: u32,
        place: u32,
        link: u32,
        count: u32,
        greatest: u32,
    },
    // A link of the list of unused records: where it stands, the UIR before or 0.
    Unused {
        link: u32,
        before: u32,
    },
}

// An index record one of whose entries led down: the record, the entry after that one, that one's Last. All are 0 where there is none;
// the entry after one is never 0. No Option, and no invariant that says SmallLevel: left_at of checker takes every level, also one of
// numbers that no walk leaves.
#[derive(Clone, Copy, Debug, PartialEq, Eq)]
pub struct Level {
    pub vxr: u32,
    pub next: u32,
    pub last: u32,
}

// The index records above the one that is walked, the nearest first. Seven fields and no array: to the definitions an array is a list of
// any length, and each would have to say seven.
#[derive(Clone, Copy, Debug, PartialEq, Eq)]
pub struct Levels {
    pub a: Level,
    pub b: Level,
    pub c: Level,
    pub d: Level,
    pub e: Level,
    pub f: Level,
    pub g: Level,
}

// Where a link leads. Three cases with names: a Result of an Option is matched in two steps, where the definition of a step has one.
#[derive(Clone, Copy, Debug, PartialEq, Eq)]
pub enum Link {
    // The file ends before it.
    Past,
    // It is zero.
    Zero,
    // To an offset.
    To { at: u32 },
}

// What a step of the walk finds, whatever the marks say. Numbers are refusals, 0 for none, since
// settle takes every number. Where the walk goes on comes first in each case.
#[derive(Clone, Copy, Debug, PartialEq, Eq)]
pub enum Step {
    // A zero link that ends a list: where the walk goes on, and the number.
    Over {
        next: Walk,
        number: u32,
    },
    // The end of the walk, or a link that leads nowhere: one that cannot be read, or a next of a lower index record.
    End {
        number: u32,
    },
    // A link to a record: where the walk goes on, the number before its offset is looked at, the record, the number of its type,
    // the number of its rule and its place in the list.
    Take {
        next: Walk,
        early: u32,
        target: u32,
        typed: u32,
        late: u32,
    },
    // A link to a lower index record that keeps its rule: where the walk goes on, the record, the number of its depth, and the level
    // that it goes down from.
    Down {
        next: Walk,
        target: u32,
        typed: u32,
        level: Level,
    },
    // The zero link of a lower index record: where the walk goes on, one level up.
    Up {
        next: Walk,
    },
}
