// Which part of the file area and of the marks area is a job's own, and what holds of such parts.
ghost use Rattle.std.specs.Prelude.{◌≡◌};
ghost use Rattle.jobs.specs.Parts.{inside, overlap, outside, clash};

// A part of an area: where it begins, and its length.
#[repr(C)]
#[derive(Clone, Copy)]
pub struct Part {
    pub from: usize,
    pub len: usize,
}

// A job's part of the file area and of the marks area.
#[repr(C)]
#[derive(Clone, Copy)]
pub struct Parts {
    pub file: Part,
    pub marks: Part,
}

// The lengths of the file area and of the marks area.
#[derive(Clone, Copy)]
pub struct Areas {
    pub files: usize,
    pub marks: usize,
}

impl Part {
    // It lies in an area of this length.
    #[tactic(auto, unfolding(crate::specs::Parts::inside))]
    fn is_inside(self, area: usize) -> bool
        ensures { result ≡ inside self area }
    {
        self.from <= area && self.len <= area - self.from
    }

    // It overlaps another part of its area; one of length 0 overlaps none. By differences, as from + len may be past the largest number.
    #[tactic(auto, unfolding(crate::specs::Parts::overlap))]
    fn overlaps(self, other: Part) -> bool
        ensures { result ≡ overlap self other }
    {
        if self.from < other.from {
            other.from - self.from < self.len && other.len != 0
        } else {
            self.from - other.from < other.len && self.len != 0
        }
    }
}

impl Parts {
    // One of the two does not lie in its area.
    #[tactic(auto, unfolding(crate::specs::Parts::outside))]
    pub fn is_outside(self, areas: Areas) -> bool
        ensures { result ≡ outside self areas.files areas.marks }
    {
        !self.file.is_inside(areas.files) || !self.marks.is_inside(areas.marks)
    }

    // It shares a byte of the file area or of the marks area with another job's.
    #[tactic(auto, unfolding(crate::specs::Parts::clash))]
    pub fn clashes(self, other: Parts) -> bool
        ensures { result ≡ clash self other }
    {
        self.file.overlaps(other.file) || self.marks.overlaps(other.marks)
    }
}
