ghost use Rattle.std.specs.Prelude.{◌≡◌, [], ◌∷◌, take, drop, slice_get, false, true, IfSome};
ghost use Rattle.std.specs.List.{list_any};
ghost use Rattle.pr_model.specs.Attentions.{same_code, with_code, is_attention, AreAttentions};

use pr_words::Code;
use std::marker::Model;

/// The unit attention conditions that wait for one nexus, in the order in which they arose (SAM-5).
/// Each of the four that this target establishes waits at most once.
#[derive(Drop)]
pub struct Attentions {
    codes: [Code; 4],
    len: usize,
}

impl Model for Attentions {
    ghost use Rattle.std.specs.Prelude.{◌≤◌, List, take};
    ghost use Rattle.pr_words.specs.declared.code.Code.{Code};
    ghost use Rattle.pr_model.specs.Attentions.{AreAttentions};

    ghost Value = { List Code };

    ghost view = { λ a. take a.len a.codes };

    ghost invariant = { λ a. (a.len ≤ 4) × AreAttentions (take a.len a.codes) };
}

impl Attentions {
    /// What waits for a nexus that the target hasn't told of its power-up yet.
    pub fn fresh() -> Attentions
        ensures { result ≡ Code.POWER_ON ∷ [] }
    {
        Attentions {
            codes: [Code::POWER_ON; 4],
            len: 1,
        }
    }

    /// Establishes a condition. It is reported after those that wait already.
    #[tactic(auto, using(pr_model::proofs::Waiting::room_for, pr_model::proofs::Waiting::more_attentions))]
    pub fn raise(&mut self, code: Code)
        requires { is_attention code ≡ true }
        ensures { self.new ≡ with_code code self.old }
    {
        if waits(&self.codes[..self.len], &code) {
            return;
        }
        self.codes[self.len] = code;
        self.len += 1;
    }

    /// The condition that is reported first. None where none waits.
    pub fn first(&self) -> Option<Code>
        ensures first { result ≡ slice_get self.now 0 }
        ensures each_once { AreAttentions self.now }
    {
        if self.len == 0 {
            return None;
        }
        Some(self.codes[0])
    }

    /// The condition that is reported first, which is cleared by that.
    #[tactic(auto, using(pr_model::proofs::Waiting::fewer_attentions))]
    pub fn take(&mut self) -> Option<Code>
        ensures first { result ≡ slice_get self.old 0 }
        ensures rest { self.new ≡ drop 1 self.old }
        ensures known { IfSome result (λ c. is_attention c ≡ true) }
    {
        if self.len == 0 {
            return None;
        }
        let first = self.codes[0];
        self.codes.rotate_left(1);
        self.len -= 1;
        Some(first)
    }
}

fn waits(codes: &[Code], code: &Code) -> bool
    ensures { result ≡ list_any (same_code code.now) codes.now }
{
    codes.iter().any(|waiting| is_same(code, waiting))
}

fn is_same(a: &Code, b: &Code) -> bool
    ensures { result ≡ same_code a.now b.now }
{
    a == b
}
