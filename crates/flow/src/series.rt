// Series in a list: where one stands, and the opening's rule (01, row 11).
ghost use Rattle.std.specs.Prelude.{◌≡◌, not};
ghost use Rattle.flow.specs.Ends.{differing, wrong_series};

// A series stands twice in a list.
fn stands_twice(series: &[u16]) -> bool
    ensures { result ≡ not (differing series.now) }
{
    for (i, one) in series.iter().enumerate() {
        if series[i + 1..].contains(one) {
            return true;
        }
    }
    false
}

// 11, in both openings: not 1 to 8 differing series from 1 up.
pub(crate) fn wrong_series(series: &[u16]) -> bool
    ensures { result ≡ wrong_series series.now }
{
    series.is_empty() || series.len() > 8 || series.contains(&0) || stands_twice(series)
}
