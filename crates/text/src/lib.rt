#![tactic(auto)]
// Text put into a lent buffer: bytes, decimal numbers, a refused file's line, the columns of the key's lines. Each function gives the
// place after the last byte that it wrote, where the next one goes on. What has no room is cut off, so that none of them asks for room;
// `at_front` in proofs/Puts.antt says what is in the buffer where there is room. Last, the buffer for a file that is read.
ghost use Rattle.std.specs.Prelude.{[], ◌∷◌, ◌≡◌, ◌/◌, ◌%◌, ◌<◌, replicate};
ghost use Rattle.rules.specs.Key.{digit, decimal, file_line};
ghost use Rattle.text.specs.Put.{Put};

mod columns;
mod head;

pub use columns::{put_column, put_columns, put_key_line};
pub use head::{put_head, put_two, put_word};

pub fn put_byte(out: &mut [u8], at: usize, byte: u8) -> usize
    ensures { Put out.old out.new at result (byte ∷ []) }
{
    if at < out.len() {
        out[at] = byte;
        return at + 1;
    }
    at
}

pub fn put_bytes(out: &mut [u8], at: usize, text: &[u8]) -> usize
    ensures { Put out.old out.new at result text.now }
{
    let mut place = at;
    for &byte in text {
        place = put_byte(out, place, byte);
    }
    place
}

// The last digit of a number. There is no `From<u64> for u8`: the cast is proved to lose nothing.
fn last_digit(n: u64) -> u8
    ensures { result ≡ digit (n % 10) }
{
    b'0' + (n % 10) as u8
}

// One digit or two.
fn put_two_digits(out: &mut [u8], at: usize, n: u64) -> usize
    requires { n < 100 }
    ensures { Put out.old out.new at result (decimal n) }
{
    if n < 10 {
        return put_byte(out, at, last_digit(n));
    }
    put_pair(out, at, n)
}

// The last two digits.
fn put_pair(out: &mut [u8], at: usize, n: u64) -> usize
    ensures { Put out.old out.new at result (digit (n / 10 % 10) ∷ digit (n % 10) ∷ []) }
{
    put_bytes(out, at, &[last_digit(n / 10), last_digit(n)])
}

fn put_four_digits(out: &mut [u8], at: usize, n: u64) -> usize
    requires { n < 10000 }
    ensures { Put out.old out.new at result (decimal n) }
{
    if n < 100 {
        return put_two_digits(out, at, n);
    }
    let third = put_two_digits(out, at, n / 100);
    put_pair(out, third, n)
}

// As many pairs as the number has.
fn put_digits(out: &mut [u8], at: usize, n: u64) -> usize
    ensures { Put out.old out.new at result (decimal n) }
{
    if n < 10000 {
        return put_four_digits(out, at, n);
    }
    let last = put_digits(out, at, n / 100);
    put_pair(out, last, n)
}

// The numbers of a key are small, an event's at most 32,766: they need no recursion.
pub fn put_decimal(out: &mut [u8], at: usize, n: u64) -> usize
    ensures { Put out.old out.new at result (decimal n) }
{
    if n < 10000 {
        return put_four_digits(out, at, n);
    }
    let rest = n / 100;
    if rest < 10000 {
        let last = put_four_digits(out, at, rest);
        return put_pair(out, last, n);
    }
    put_digits(out, at, n)
}

// "A refused file prints one line: `file`, a space, the number." It takes every number, as it did: a `Refusal` would ask more of callers.
pub fn put_file_line(out: &mut [u8], at: usize, refusal: u8) -> usize
    ensures { Put out.old out.new at result (file_line refusal) }
{
    let number = put_bytes(out, at, b"file ");
    let end = put_decimal(out, number, u64::from(refusal));
    put_byte(out, end, b'\n')
}

// A buffer of a size, before anything is put into it.
pub fn zeros<const N: usize>() -> [u8; N]
    ensures { result ≡ replicate N 0 }
{
    [0; N]
}

// One byte more than a file may have: `enough_for_key` and its like, proofs/Enough.antt.
pub const INPUT: usize = 65537;

// A buffer for a file that is read, and for one byte behind it: what is too long is seen to be.
pub fn file_buffer() -> [u8; INPUT]
    ensures { result ≡ replicate 65537 0 }
{
    zeros()
}
