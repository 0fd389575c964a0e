// The content check: refusals 7, 8, 9 and 10, in that order. Its parts are `fields::is_shaped`, `items::wrong_width`,
// `items::walk_items` and `composition::is_composed`.
ghost use Rattle.std.specs.Prelude.{◌≡◌};
ghost use Rattle.ftd.specs.Content.{content_check};

use crate::composition::{Direction, is_composed};
use crate::fields::is_shaped;
use crate::items::check_items;
use crate::refusal::Refusal;

// The first refusal of content that is given for a message, or none.
#[tactic(auto, unfolding(crate::specs::Content::content_check))]
pub fn check_content(
    tid: u32,
    direction: Direction,
    content: &[u8],
    limit: usize,
) -> Result<(), Refusal>
    ensures { result ≡ content_check tid direction content.now limit }
{
    if !is_shaped(content, limit) {
        return Err(Refusal::FieldRun);
    }
    check_items(content)?;
    if !is_composed(tid, direction, content) {
        return Err(Refusal::Composition);
    }
    Ok(())
}
