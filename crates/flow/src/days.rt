// Trade dates (01: marks) compared.
ghost use Rattle.std.specs.Prelude.{◌≡◌};
ghost use Rattle.flow.specs.Ends.{before, up_to, differs};

// A trade date is at most as high as another one that is there.
pub fn is_up_to(date: u32, other: Option<u32>) -> bool
    ensures { result ≡ up_to date other }
{
    other.is_some_and(|e| date <= e)
}

// Both are there, and the first is below the second.
pub fn before(a: Option<u32>, b: Option<u32>) -> bool
    ensures { result ≡ before a b }
{
    matches!((a, b), (Some(d), Some(e)) if d < e)
}

// There is one, and it is not the other.
pub(crate) fn differs(a: Option<u32>, b: Option<u32>) -> bool
    ensures { result ≡ differs a b }
{
    a.is_some() && a != b
}
