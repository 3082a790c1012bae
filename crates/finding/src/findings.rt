// What stands at the places of a rule, one after the other.
ghost use Rattle.std.specs.Prelude.{◌≤◌, ◌≡◌, length};

use crate::finding::{Finding, Standing};

// A rule, and the place that comes next.
#[derive(Clone, Copy)]
pub struct Findings<'a> {
    rule: &'a [u8],
    at: usize,
    ghost rule_len_bound: { length rule.now ≤ 256 },
}

impl<'a> Findings<'a> {
    ghost use Rattle.finding.specs.Left.{findings_left, findings_of};

    pub fn of(rule: &'a [u8]) -> Findings<'a>
        requires { length rule.now ≤ 256 }
        ensures { findings_left result ≡ findings_of rule.now 0 }
    {
        Findings { rule, at: 0 }
    }
}

impl<'a> Iterator for Findings<'a> {
    ghost use Rattle.std.specs.Iterator.{YieldsFirstBy, item_count};
    ghost use Rattle.finding.specs.Left.{findings_left};
    ghost use Rattle.finding.specs.Standing.{said_by};

    type Item = Standing;

    ghost next_gives = { YieldsFirstBy said_by findings_left };

    ghost remaining = { item_count findings_left };

    fn next(&mut self) -> Option<Standing> {
        if self.at >= self.rule.len() {
            return None;
        }
        let finding = Finding::of(self.rule, self.at);
        self.at = finding.next;
        Some(finding.standing)
    }
}
