// The clearing of marks for C, for the benchmark alone: the call of crates/clearing by that name, with its clauses.
// It stands twice: a library of Rattle cannot be a static library too.
#![tactic(auto)]

ghost use Rattle.std.specs.Prelude.{◌≡◌, length};
ghost use Rattle.marks.specs.Marks.{cleared};
ghost use Rattle.clearing.specs.Clearing.{reached};

// The marks of records of these sizes, one after the other, as far as they have 8 bytes or more and fit; gives where that ends.
#[unsafe(no_mangle)]
pub extern "C" fn clearing_records(m: &mut [u8], sizes: &[usize], singly: u32) -> usize
    ensures { (result ≡ reached (length m.old) sizes.now 0) × (m.new ≡ cleared m.old 0 result) }
{
    clearing::clearing_records(m, sizes, singly)
}
