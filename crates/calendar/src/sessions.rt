// Sessions: three numbers each, first second, last, and 0 or, where it is late, any other.
ghost use Rattle.std.specs.Prelude.{◌≡◌, ◌+◌, ◌*◌, ◌≤◌, ◌<◌, length};
ghost use Rattle.calendar.specs.Calendar.{some, holds, is_late, wrong_session, overlap, overlaps_before};
ghost use Rattle.calendar.specs.Calendar.{wrong_sessions, counts, in_session};

// A session has a second.
fn holds_at(s: &[u32], second: u32, i: usize) -> bool
    requires { 3 * i + 2 < length s.now }
    ensures { result ≡ holds s.now second i }
{
    s[3 * i] <= second && second < s[3 * i + 1]
}

// It is late.
fn late_at(s: &[u32], i: usize) -> bool
    requires { 3 * i + 2 < length s.now }
    ensures { result ≡ is_late s.now i }
{
    s[3 * i + 2] != 0
}

// It has no second, or ends above 86,400.
fn wrong_at(s: &[u32], i: usize) -> bool
    requires { 3 * i + 2 < length s.now }
    ensures { result ≡ wrong_session s.now i }
{
    s[3 * i + 1] <= s[3 * i] || 86400 < s[3 * i + 1]
}

// Two have a second in common.
fn overlap_at(s: &[u32], i: usize, j: usize) -> bool
    requires { (3 * i + 2 < length s.now) × (3 * j + 2 < length s.now) }
    ensures { result ≡ overlap s.now i j }
{
    s[3 * i] < s[3 * j + 1] && s[3 * j] < s[3 * i + 1]
}

// One overlaps one before it.
fn overlaps_before(s: &[u32], i: usize) -> bool
    requires { 3 * i + 2 < length s.now }
    ensures { result ≡ overlaps_before s.now i }
{
    (0..i).any(|j| overlap_at(s, i, j))
}

// One of the first n is wrong.
fn any_wrong(s: &[u32], n: usize) -> bool
    requires { 3 * n ≤ length s.now }
    ensures { result ≡ some n (wrong_session s.now) }
{
    (0..n).any(|i| wrong_at(s, i))
}

// Two of the first n overlap.
fn any_overlap(s: &[u32], n: usize) -> bool
    requires { 3 * n ≤ length s.now }
    ensures { result ≡ some n (overlaps_before s.now) }
{
    (0..n).any(|i| overlaps_before(s, i))
}

// 26.
pub(crate) fn wrong_sessions(s: &[u32]) -> bool
    ensures { result ≡ wrong_sessions s.now }
{
    let n = s.len() / 3;
    s.len() % 3 != 0 || 8 < n || any_wrong(s, n) || any_overlap(s, n)
}

// A session counts: it has the second, and is late where only late ones count.
fn counts_at(s: &[u32], only: bool, second: u32, i: usize) -> bool
    requires { 3 * i + 2 < length s.now }
    ensures { result ≡ counts only s.now second i }
{
    holds_at(s, second, i) && (!only || late_at(s, i))
}

// A second is in a session; of the late ones only.
pub(crate) fn in_session(s: &[u32; 24], only: bool, second: u32) -> bool
    ensures { result ≡ in_session only s.now second }
{
    (0..8).any(|i| counts_at(s, only, second, i))
}
