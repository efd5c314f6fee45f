// What serves the speed of stage 2 alone: whether a coordinate record is fine, at a glance at its
// numbers. The public function takes every record. It is a crate over `rules`, whose answer it gives in
// fewer steps, so that `rules` can be read without it.
//
// The contracts cite `specs/Checks` of `rules`.
#![tactic(auto)]

ghost use Rattle.std.specs.Prelude.{◌≡◌, cond, ℕ, ◌/◌, ltb};
ghost use Rattle.verdict.specs.Rules.{first_broken, is_fine, block};
ghost use Rattle.rules.specs.Checks.{checks_of};
ghost use Rattle.rules.specs.declared.Due.TheVariants.{Coordinates};

// What a number of a coordinate record may be at most: 10000 within the count, 0 past it.
fn most_at(i: usize, left: usize) -> u32
    ensures { result ≡ cond (ltb (i / 2) left) 10000 0 }
{
    if i / 2 < left { 10000 } else { 0 }
}

// Whether a coordinate record keeps all rules of stage 2, where `left` points of its line are left. It
// does not say which rule is broken.
pub fn fine_coordinates(s: &[u8], left: usize) -> bool
    ensures { (row : ℕ) → result ≡ is_fine (first_broken (block 2 row (checks_of (Coordinates left) s.now))) }
{
    for i in 0..14 {
        let Some(n) = glances::glance_number(s, 1 + 5 * i) else {
            return false;
        };
        if most_at(i, left) < n {
            return false;
        }
    }
    texts::read_blank(s, 71, 2)
}
