// Which rule of a map a slot breaks, and by which link.
ghost use Rattle.std.specs.Prelude.{◌≡◌, suc, ◌<◌};
ghost use Rattle.model.specs.Lists.{all_below};
ghost use Rattle.model.specs.Map.{crossed, keeps_at, breaking_link};
ghost use Rattle.model.specs.Checks.{pass, dim_ok};
ghost use Rattle.reading.specs.RuleOf.{rule_of};
ghost use Rattle.reading.specs.Found.{found_below};

// The rules of a map at a slot, in their order, but for the last: where no other is broken, it is that one, by link 3.
#[derive(Clone, Copy, Debug, PartialEq, Eq)]
pub enum Rule {
    LinksLive,
    LinksReturn,
    PairsCommute,
}

// Whether the pairs of link i with higher links commute at d.
fn pairs_commute(n: u32, table: &[u32], d: u32, i: usize) -> bool
    requires { (dim_ok n ≡ pass) × (i < 4) }
    ensures { result ≡ all_below (suc n) (crossed table.now d i) }
{
    for j in i + 2..n as usize + 1 {
        if !crate::crossed(table, d, i, j) {
            return false;
        }
    }
    true
}

// Whether link i of d keeps the rule.
fn keeps_at(n: u32, table: &[u32], d: u32, rule: Rule, i: usize) -> bool
    requires { (dim_ok n ≡ pass) × (i < 4) }
    ensures { result ≡ keeps_at n table.now d (rule_of rule) i }
{
    match rule {
        Rule::LinksLive => crate::live(table, crate::link(table, i, d)),
        Rule::LinksReturn => crate::turned(table, d, i),
        Rule::PairsCommute => pairs_commute(n, table, d, i),
    }
}

// The least link of d that breaks the rule.
pub fn breaking_link(n: u32, table: &[u32], d: u32, rule: Rule) -> Option<u32>
    requires { dim_ok n ≡ pass }
    ensures { result ≡ found_below 4 (breaking_link n table.now d (rule_of rule)) }
{
    for i in 0..4 {
        if !keeps_at(n, table, d, rule, i as usize) {
            return Some(i);
        }
    }
    None
}
