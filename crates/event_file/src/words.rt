// Numbers of several bytes, big-endian.
ghost use Rattle.std.specs.Prelude.{◌≡◌, ◌≤◌, get_or};
ghost use Rattle.rules.specs.EventFile.{word_of, length_field};

// The number of two bytes.
pub fn word(high: u8, low: u8) -> u16
    ensures { result ≡ word_of high low }
{
    u16::from_be_bytes([high, low])
}

// A byte; past the end 0.
pub fn byte_at(file: &[u8], at: usize) -> u8
    ensures { result ≡ get_or file.now at 0 }
{
    file.get(at).copied().unwrap_or(0)
}

// The number of the four bytes at the front, of a file its length field. A byte that is not there counts as 0.
// There is no `From<u32> for usize`: the cast is proved to lose nothing.
pub fn length_field(file: &[u8]) -> usize
    ensures value { result ≡ length_field file.now }
    ensures bounded { result ≤ 4294967295 }
{
    let front = [
        byte_at(file, 0),
        byte_at(file, 1),
        byte_at(file, 2),
        byte_at(file, 3),
    ];
    u32::from_be_bytes(front) as usize
}
