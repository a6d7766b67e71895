// Links: the checks of a link record, and the word of a link.
ghost use Rattle.std.specs.Prelude.{◌≡◌, ℕ, ◌<◌, ◌≤◌, Result};
ghost use Rattle.meaning.specs.Hall.{end_number, link_word};
ghost use Rattle.hall.specs.Plans.{IsChecked};

use meaning::{End, Plan, Refusal};

// The end of a link that passes its checks, in their order.
pub fn check(plan: &Plan, source: u8, code: u8, number: u8) -> Result<End, Refusal>
    ensures { IsChecked plan.now source code number result }
{
    if 64 <= plan.links {
        return Err(Refusal::LinksFull);
    }
    if plan.nodes <= source {
        return Err(Refusal::NoNode);
    }
    let end = End::try_from((code, number))?;
    match end {
        End::Node(node) => {
            if node < plan.nodes {
                Ok(end)
            } else {
                Err(Refusal::NoNode)
            }
        }
        End::Port(_) | End::Drop => Ok(end),
    }
}

// The word of a link.
pub fn pack(source: u8, end: End) -> u16
    requires { source < 16 }
    ensures { result ≡ link_word source (end_number end) }
{
    u16::from(source) * 1024 + u16::from(end)
}
