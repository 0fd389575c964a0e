// The words of a script's line: where a word ends, and the number or the bytes that it says.
ghost use Rattle.std.specs.Prelude.{◌≡◌, ◌+◌, ◌-◌, ◌/◌, ◌≤◌, ◌==◌, ◌++◌, ltb, length, take, drop};
ghost use Rattle.std.specs.List.{position};
ghost use Rattle.ftd.specs.Bytes.{put};
ghost use Rattle.play.specs.Words.{end_of, digit_value, number_in, tid_in, all_hex, says_bytes, pair_of, said_bytes, same_word};
ghost use Rattle.play.specs.Words.{next_end, end_at, argument as argument_of, has_arguments, all_bytes, has_form};
ghost use Rattle.play.specs.Words.{number_count, number_up_to, series_from, words_from};
ghost use Rattle.play.specs.Words.{wide_in, up_to_colon, series_in, reserve_in, says_share};
ghost use Rattle.play.specs.Words.{share_count, series_at, reserve_at, reserves_from, name_in, has_name};

// A number above all that four bytes hold stands for a word that says none.
// Stays: no `Option<u32>`, since the definitions (`number_in`, `no_number`, `tid_in`, `series_in`) give a number
// above
// every limit, so that a call's one comparison with its limit refuses a word that says none too.
pub const NO_NUMBER: u64 = 4294967296;

// The first place at which bytes have the one given.
fn place_of(bytes: &[u8], given: u8) -> Option<usize>
    ensures { result ≡ position (λ x. x == given) bytes.now }
{
    bytes.iter().position(|x| *x == given)
}

// Where the word that begins at a place ends: at the next space, or with the line.
pub(crate) fn word_end(line: &[u8], at: usize) -> usize
    requires { at ≤ length line.now }
    ensures { (result ≡ end_of line.now at) × (at ≤ result) × (result ≤ length line.now) }
{
    at + place_of(&line[at..], b' ').unwrap_or(line.len() - at)
}

// The value of a digit, decimal or hexadecimal in either case; 16 where it is none.
fn digit(x: u8) -> u8
    ensures { (result ≡ digit_value x) × (result ≤ 16) }
{
    match x {
        b'0'..=b'9' => x - b'0',
        b'A'..=b'F' => x - b'A' + 10,
        b'a'..=b'f' => x - b'a' + 10,
        _ => 16,
    }
}

// The number that a word's digits say, in a base; `NO_NUMBER` where it is no number, or above four bytes.
pub(crate) fn read_number(word: &[u8], base: u64) -> u64
    requires { base ≤ 16 }
    ensures { (result ≡ number_in base word.now) × (result ≤ 4294967296) }
{
    if word.is_empty() {
        return NO_NUMBER;
    }
    let mut n: u64 = 0;
    for x in word {
        let d = u64::from(digit(*x));
        if base <= d {
            return NO_NUMBER;
        }
        n = n * base + d;
        if NO_NUMBER <= n {
            return NO_NUMBER;
        }
    }
    n
}

// A TID: eight hexadecimal digits.
pub(crate) fn read_tid(word: &[u8]) -> u64
    ensures { (result ≡ tid_in word.now) × (result ≤ 4294967296) }
{
    if word.len() == 8 {
        return read_number(word, 16);
    }
    NO_NUMBER
}

// The decimal number that a word's digits say.
fn read_wide(word: &[u8]) -> Option<usize>
    ensures { result ≡ wide_in word.now }
{
    if word.is_empty() {
        return None;
    }
    let mut n: usize = 0;
    for x in word {
        let d = usize::from(digit(*x));
        if 10 <= d {
            return None;
        }
        n = n.checked_mul(10)?.checked_add(d)?;
    }
    Some(n)
}

// How many bytes of a word stand before its first colon, or before its end.
fn colon_at(word: &[u8]) -> usize
    ensures { (result ≡ up_to_colon word.now) × (result ≤ length word.now) }
{
    place_of(word, b':').unwrap_or(word.len())
}

// The number before a word's colon.
fn read_named(word: &[u8]) -> u64
    ensures { (result ≡ series_in word.now) × (result ≤ 4294967296) }
{
    let e = colon_at(word);
    read_number(&word[..e], 10)
}

// The reserve behind a word's colon; 0 without one.
fn read_reserve(word: &[u8]) -> Option<usize>
    ensures { result ≡ reserve_in word.now }
{
    let e = colon_at(word);
    if e < word.len() {
        return read_wide(&word[e + 1..]);
    }
    Some(0)
}

// The word says a series, and behind a colon its reserve.
#[tactic(auto, unfolding(crate::specs::Words::says_share))]
fn says_share(word: &[u8]) -> bool
    ensures { result ≡ says_share word.now }
{
    read_named(word) <= 65535 && read_reserve(word).is_some()
}

// All bytes of a word are hexadecimal digits.
fn all_hex(word: &[u8]) -> bool
    ensures { result ≡ all_hex word.now }
{
    word.iter().all(|x| digit(*x) != 16)
}

// The word says bytes: pairs of hexadecimal digits, or `-` for none.
pub(crate) fn says_bytes(word: &[u8]) -> bool
    ensures { result ≡ says_bytes word.now }
{
    match word {
        [] => false,
        [one] => *one == b'-',
        _ => word.len() % 2 == 0 && all_hex(word),
    }
}

// The byte that a pair of digits says.
fn pair(high: u8, low: u8) -> u8
    ensures { result ≡ pair_of high low }
{
    ((u16::from(digit(high)) * 16 + u16::from(digit(low))) % 256) as u8
}

// The bytes that a word says are put at a place; answers how many.
pub(crate) fn put_bytes(out: &mut [u8], at: usize, word: &[u8]) -> usize
    requires { at + length word.now / 2 ≤ length out.old }
    ensures { (out.new ≡ put out.old at (said_bytes word.now))
        × (result ≡ length (said_bytes word.now)) × (result ≡ length word.now / 2) }
{
    let n = word.len() / 2;
    for i in 0..n {
        out[at + i] = pair(word[2 * i], word[2 * i + 1]);
    }
    n
}

// How many bytes two words said, one behind the other.
#[derive(Clone, Copy)]
pub struct Two {
    pub first: usize,
    pub second: usize,
}

// The word is the one given.
pub(crate) fn is_word(word: &[u8], given: &[u8]) -> bool
    ensures { result ≡ same_word word.now given.now }
{
    word == given
}

// Where the word ends that follows the one that ends at a place; behind the line where none follows.
fn next_end(line: &[u8], e: usize) -> usize
    ensures { (result ≡ next_end line.now e) × (result ≤ length line.now + 1) }
{
    if e < line.len() {
        return word_end(line, e + 1);
    }
    line.len() + 1
}

// Where word i of a line ends.
fn end_at(line: &[u8], i: usize) -> usize
    ensures { (result ≡ end_at line.now i) × (result ≤ length line.now + 1) }
{
    let mut e = word_end(line, 0);
    for _ in 0..i {
        e = next_end(line, e);
    }
    e
}

// Argument i: the word behind word i; no bytes where there is none.
pub(crate) fn argument(line: &[u8], i: usize) -> &[u8]
    ensures { result.now ≡ argument_of line.now i }
{
    let a = end_at(line, i);
    if a < line.len() {
        let b = word_end(line, a + 1);
        return &line[a + 1..b];
    }
    &line[..0]
}

// The bytes that two arguments say are put to the start of a buffer, one behind the other.
pub(crate) fn put_two(out: &mut [u8], line: &[u8], i: usize, j: usize) -> Two
    requires { length line.now ≤ length out.old }
    ensures { (result.first + result.second ≤ length out.old)
        × (take result.first out.new ≡ said_bytes (argument_of line.now i))
        × (take ((result.first + result.second) - result.first) (drop result.first out.new)
        ≡ said_bytes (argument_of line.now j)) }
{
    let n = put_bytes(out, 0, argument(line, i));
    let m = put_bytes(out, n, argument(line, j));
    Two {
        first: n,
        second: m,
    }
}

// The line has just so many arguments.
fn has_arguments(line: &[u8], n: usize) -> bool
    ensures { result ≡ has_arguments line.now n }
{
    end_at(line, n) == line.len()
}

// The k arguments from i on say bytes.
fn all_bytes(line: &[u8], i: usize, k: usize) -> bool
    requires { i + k ≤ 4 }
    ensures { result ≡ all_bytes line.now i k }
{
    for j in 0..k {
        if !says_bytes(argument(line, i + j)) {
            return false;
        }
    }
    true
}

// The line has so many numbers, and behind them so many words that say bytes.
pub(crate) fn has_form(line: &[u8], numbers: usize, bytes: usize) -> bool
    requires { numbers + bytes ≤ 4 }
    ensures { result ≡ has_form line.now numbers bytes }
{
    has_arguments(line, numbers + bytes) && all_bytes(line, numbers, bytes)
}

// The line has one argument, of one byte at least.
pub(crate) fn has_name(line: &[u8]) -> bool
    ensures { result ≡ has_name line.now }
{
    has_arguments(line, 1) && !argument(line, 0).is_empty()
}

// The name that a word says: its bytes as they stand, and none where it is `-`.
pub(crate) fn name_in(word: &[u8]) -> &[u8]
    ensures { result.now ≡ name_in word.now }
{
    if is_word(word, b"-") {
        return &word[..0];
    }
    word
}

// Argument i says no number up to a top one.
fn above(line: &[u8], i: usize, top: u64) -> bool
    ensures { result ≡ ltb top (number_in 10 (argument_of line.now i)) }
{
    read_number(argument(line, i), 10) > top
}

// Stays: two loops, here and in `share_count`, with a definition each (`numbers_behind`, `shares_behind`). One over a
// closure would have to say what the closure answers of each argument, which takes more lines than are the same.
// How many numbers up to a top one the arguments from i on are; one more than the most where they are too many, or one
// is no such number.
pub(crate) fn number_count(line: &[u8], i: usize, top: u64, most: usize) -> usize
    requires { (i ≤ 1) × (most ≤ 112) }
    ensures { (result ≡ number_count top most line.now i) × (result ≤ most + 1) }
{
    for n in 0..most + 1 {
        if has_arguments(line, i + n) {
            return n;
        }
        if above(line, i + n, top) {
            return most + 1;
        }
    }
    most + 1
}

// The number that argument i says; 0 where it says none up to a top one.
fn number_up_to(line: &[u8], i: usize, top: u64) -> u64
    ensures { (result ≡ number_up_to top line.now i) × (result ≤ top) }
{
    let x = read_number(argument(line, i), 10);
    if x > top {
        return 0;
    }
    x
}

// The series that argument i says, before its colon where it has one; 0 where it says none.
fn series_at(line: &[u8], i: usize) -> u64
    ensures { (result ≡ series_at line.now i) × (result ≤ 65535) }
{
    let x = read_named(argument(line, i));
    if x > 65535 {
        return 0;
    }
    x
}

// Stays: three functions that differ in the list's type and in what is put. One over a closure would have to say what
// the closure answers at each place, which takes more than the two lines that are the same.
// The n series from argument i on are put into a list.
pub(crate) fn read_series(line: &[u8], i: usize, n: usize, list: &mut [u16])
    requires { (i ≤ 1) × (n ≤ length list.old) }
    ensures { list.new ≡ series_from line.now i n ++ drop n list.old }
{
    for (k, x) in list[..n].iter_mut().enumerate() {
        *x = series_at(line, i + k) as u16;
    }
}

// How many series with their reserves the arguments from i on are; 65 where they are too many, or one is none.
pub(crate) fn share_count(line: &[u8], i: usize) -> usize
    requires { i ≤ 1 }
    ensures { (result ≡ share_count line.now i) × (result ≤ 65) }
{
    for n in 0..65 {
        if has_arguments(line, i + n) {
            return n;
        }
        if !says_share(argument(line, i + n)) {
            return 65;
        }
    }
    65
}

// The reserve that argument i says; 0 where it says none.
#[tactic(auto, unfolding(crate::specs::Words::reserve_at, crate::specs::Words::wide_number))]
fn reserve_at(line: &[u8], i: usize) -> usize
    ensures { result ≡ reserve_at line.now i }
{
    read_reserve(argument(line, i)).unwrap_or(0)
}

// The n reserves from argument i on are put into a list.
pub(crate) fn read_reserves(line: &[u8], i: usize, n: usize, list: &mut [usize])
    requires { (i ≤ 1) × (n ≤ length list.old) }
    ensures { list.new ≡ reserves_from line.now i n ++ drop n list.old }
{
    for (k, x) in list[..n].iter_mut().enumerate() {
        *x = reserve_at(line, i + k);
    }
}

// The n numbers of four bytes from argument i on are put into a list.
pub(crate) fn read_words(line: &[u8], i: usize, n: usize, list: &mut [u32])
    requires { (i ≤ 49) × (n ≤ length list.old) }
    ensures { list.new ≡ words_from line.now i n ++ drop n list.old }
{
    for (k, x) in list[..n].iter_mut().enumerate() {
        *x = number_up_to(line, i + k, 4294967295) as u32;
    }
}
