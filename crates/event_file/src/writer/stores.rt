// Runs of bytes stored into a buffer; every other byte stays.
ghost use Rattle.std.specs.Prelude.{◌≡◌, ◌≤◌, ◌+◌, length};
ghost use Rattle.std.proofs.lemmas.List.Edits.{sets};
ghost use Rattle.rules.specs.EventFile.{four_bytes};

pub fn put(buffer: &mut [u8], at: usize, bytes: &[u8])
    requires { at + length bytes.now ≤ length buffer.old }
    ensures { buffer.new ≡ sets buffer.old at bytes.now }
{
    buffer[at..at + bytes.len()].copy_from_slice(bytes);
}

// The length field: a number in four bytes, big-endian. There is no `From<usize> for u32`: the cast is proved to lose nothing.
pub fn put_length(buffer: &mut [u8], count: usize)
    requires { (4 ≤ length buffer.old) × (count ≤ 65536) }
    ensures { buffer.new ≡ sets buffer.old 0 (four_bytes count) }
{
    put(buffer, 0, &(count as u32).to_be_bytes())
}
