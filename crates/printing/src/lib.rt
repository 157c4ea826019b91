// Text and numbers to standard output. No contract can say what the system writes; each says how many characters were given to it, where no write failed.
#![tactic(auto)]

ghost use Rattle.std.specs.Prelude.{◌≡◌, ◌*◌, ◌≤◌, min, max, length, IfOk};
ghost use Rattle.io.specs.Digits.{IsDigitCount};

use std::io::Result;

// Text, and its length.
// Stays: (a) by hand and not by `print!`: each function here promises how many characters it gave to the system (`IsDigitCount`), which the macros do not, and the bytes need be no text.
pub fn print(rt: &impl Print, text: &[u8]) -> Result<usize>
    ensures { IfOk result (λ n. n ≡ length text.now) }
{
    rt.write_all(text)?;
    Ok(text.len())
}

// A number in decimal digits, and how many there are.
pub fn print_number(rt: &impl Print, n: usize) -> Result<usize>
    ensures { IfOk result (λ k. IsDigitCount 10 1 n k) }
{
    let mut digits = [0u8; 20];
    let k = io::decimal(n as u64, &mut digits);
    print(rt, &digits[..k])?;
    Ok(k)
}

// Spaces, n of them, and how many there are.
fn print_spaces(rt: &impl Print, n: usize) -> Result<usize>
    requires { n ≤ 20 }
    ensures { IfOk result (λ k. k ≡ n) }
{
    print(rt, &[b' '; 20][..n])
}

// A number in decimal digits, with spaces before it up to `width` characters, and how many characters there are.
pub fn print_right(rt: &impl Print, n: usize, width: usize) -> Result<usize>
    requires { width ≤ 20 }
    ensures { IfOk result (λ k. width ≤ k) }
{
    let mut digits = [0u8; 20];
    let k = io::decimal(n as u64, &mut digits);
    let spaces = print_spaces(rt, width.saturating_sub(k))?;
    Ok(spaces + print(rt, &digits[..k])?)
}

// A number in hexadecimal digits, with zeros before it up to `width` digits, and how many digits there are.
pub fn print_hex(rt: &impl Print, n: usize, width: usize) -> Result<usize>
    ensures { IfOk result (λ k. IsDigitCount 16 (min (max width 1) 16) n k) }
{
    let mut digits = [0u8; 16];
    let k = io::hex(n as u64, width, &mut digits);
    print(rt, &digits[..k])?;
    Ok(k)
}

// Bytes, two hexadecimal digits for each, and how many digits there are.
pub fn print_bytes(rt: &impl Print, bytes: &[u8]) -> Result<usize>
    ensures { IfOk result (λ n. n ≡ 2 * length bytes.now) }
{
    let mut digits = 0;
    for &byte in bytes {
        digits += print_hex(rt, usize::from(byte), 2)?;
    }
    Ok(digits)
}

// Numbers in decimal digits, a space before each, and how many there are.
pub fn print_numbers(rt: &impl Print, numbers: &[u16]) -> Result<usize>
    ensures { IfOk result (λ k. k ≡ length numbers.now) }
{
    let mut count = 0;
    for &number in numbers {
        print(rt, b" ")?;
        print_number(rt, usize::from(number))?;
        count += 1;
    }
    Ok(count)
}
