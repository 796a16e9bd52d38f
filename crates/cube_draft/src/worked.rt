// What is kept, governed, written and constant by the definitions alone.
ghost use Rattle.std.specs.Prelude.{◌≡◌, ◌∷◌, [], true, false, codes};
ghost use Rattle.cube_dims.specs.Examples.{pay_dims};
ghost use Rattle.cube_policy.specs.Examples.{pay_policy, south_policy};
ghost use Rattle.cube_draft.specs.Drafts.{keeps, is_covered, is_governed, written_decimals, is_under, is_varied, is_plainly_above};
ghost use Rattle.cube_draft.specs.Examples.{nothing_stated, stated, stating, with_members, without, open_policy, path};

/// Which of some choices the dimensions of the pay cube keep: these are `region`, of `city` and `area`, and `time`, of `month`
/// and `quarter`.
pub fn worked_choices()
    ensures nothing { keeps nothing_stated pay_dims ≡ true }
    ensures first { keeps (stating (stated (codes "region") (codes "city") (codes "area") ∷ [])) pay_dims ≡ true }
    ensures both { keeps (stating (stated (codes "region") (codes "city") (codes "area") ∷ stated (codes "time") (codes "month") (codes "quarter") ∷ [])) pay_dims ≡ true }
    ensures second { keeps (stating (stated (codes "time") (codes "month") (codes "quarter") ∷ [])) pay_dims ≡ false }
    ensures turned { keeps (stating (stated (codes "region") (codes "area") (codes "city") ∷ [])) pay_dims ≡ false }
    ensures renamed { keeps (stating (stated (codes "place") (codes "city") (codes "area") ∷ [])) pay_dims ≡ false }
    ensures level { keeps (with_members (codes "quarter")) pay_dims ≡ true }
    ensures measure { keeps (with_members (codes "hours")) pay_dims ≡ false }
    ensures absent { keeps (without (codes "person")) pay_dims ≡ true }
    ensures measured { keeps (without (codes "hours")) pay_dims ≡ false }
    ensures above { keeps (without (codes "area")) pay_dims ≡ false }
    ensures covered { is_covered (codes "person" ∷ []) pay_dims (codes "person") ≡ true }
    ensures used { is_covered [] pay_dims (codes "hours") ≡ true }
    ensures lost { is_covered [] pay_dims (codes "person") ≡ false }
{}

/// Which measures of the pay cube are under a control and protected by an object.
pub fn worked_governing()
    ensures pay { is_governed pay_policy 0 ≡ true }
    ensures unnamed { is_governed pay_policy 1 ≡ false }
    ensures hours { is_governed south_policy 1 ≡ true }
    ensures none { is_governed south_policy 2 ≡ false }
    ensures open { is_governed open_policy 0 ≡ false }
{}

/// How many decimals fields are written with, which names begin with which, and which levels of paths are constant.
pub fn worked_fields()
    ensures zeros { written_decimals (codes "1234.50") ≡ 2 }
    ensures whole { written_decimals (codes "-1234") ≡ 0 }
    ensures bare { written_decimals (codes "12.") ≡ 0 }
    ensures many { written_decimals (codes "0.12345678") ≡ 6 }
    ensures year { is_under (codes "2026") (codes "2026-01") ≡ true }
    ensures longer { is_under (codes "2026") (codes "20261") ≡ false }
    ensures same { is_under (codes "2026") (codes "2026") ≡ false }
    ensures other { is_under (codes "2026") (codes "2025-12") ≡ false }
    ensures varied { is_varied (path (codes "Jan") (codes "Q1") ∷ path (codes "Apr") (codes "Q2") ∷ []) 1 ≡ true }
    ensures constant { is_varied (path (codes "Jan") (codes "Q1") ∷ path (codes "Feb") (codes "Q1") ∷ []) 1 ≡ false }
    ensures plain { is_plainly_above (path (codes "2026-01") (codes "2026") ∷ path (codes "2026-02") (codes "2026") ∷ []) 1 ≡ true }
    ensures unrelated { is_plainly_above (path (codes "Lyon") (codes "2026") ∷ path (codes "Nice") (codes "2026") ∷ []) 1 ≡ false }
{}
