// A fresh journal, to begin with.
#![tactic(auto)]

ghost use Rattle.std.specs.Prelude.{◌≡◌, ◌≤◌, length};
ghost use Rattle.model.specs.Runs.{begin};

pub fn fresh_journal(journal: &mut [u32])
    requires { 2 ≤ length journal.old }
    ensures { journal.new ≡ (begin 0 (length journal.old)).journal }
{
    journal.fill(0);
    journal[0] = 2;
    journal[1] = 2;
}
