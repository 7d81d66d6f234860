// Control fields stored, for the programs that make their own files.
#![tactic(auto)]

ghost use Rattle.std.specs.Prelude.{◌≡◌};
ghost use Rattle.stored_fields.specs.Stored.{stored, stored_all};

// Stores a control field; nothing is stored if the file ends before it does.
pub fn put(f: &mut [u8], at: usize, n: u32)
    ensures { f.new ≡ stored f.old at n }
{
    if f.len() < 4 {
        return;
    }
    if f.len() - 4 < at {
        return;
    }
    f[at..at + 4].copy_from_slice(&n.to_be_bytes());
}

// Stores control fields one after the other, as far as they end where the file does or before.
pub fn put_all(f: &mut [u8], at: usize, fields: &[u32])
    ensures { f.new ≡ stored_all f.old at fields.now }
{
    let mut to = at;
    for n in fields {
        if f.len() < to {
            return;
        }
        put(f, to, *n);
        to += 4;
    }
}
