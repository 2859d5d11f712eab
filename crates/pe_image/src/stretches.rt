ghost use Rattle.std.specs.Prelude.{◌≡◌, ◌+◌, ◌<◌, ◌^◌, ℕ, length, None, IfOk, IfSome, MatchOption, [], ◌∷◌, Some, cond};
ghost use Rattle.il_base.specs.cli_format.Image.{covers};
ghost use Rattle.pe_image.specs.Stretches.{found, AreAscending, is_upper_next, overlay};

use il_base::NoMemory;
use il_base::cli_format::Section;
use std::alloc::Global;

/// A stretch of memory, up to where the next one of its list begins.
#[derive(Clone, Copy, Debug)]
pub struct Stretch {
    /// The RVA at which it begins.
    pub from: u64,
    /// The first section that holds all of it, None where it is in no section.
    pub section: Option<Section>,
}

/// The stretches of one section: it, and what is after it.
#[tactic(auto, using(crate::proofs::Looking::looking))]
pub fn stretches_of(alloc: Global, section: Section) -> Result<Vec<Stretch>, NoMemory>
    ensures shown { IfOk result (λ all. (rva : ℕ) → found None all.items rva ≡ cond (covers section rva) (Some section) None) }
    ensures order { IfOk result (λ all. AreAscending 0 all.items) }
{
    let from = u64::from(section.rva);
    let end = from + u64::from(section.size);
    let mut all = Vec::new(alloc);
    all.push(Stretch {
        from,
        section: Some(section),
    })?;
    all.push(Stretch {
        from: end,
        section: None,
    })?;
    Ok(all)
}

/// What is left of two lists of stretches, of which one is laid over the other.
#[derive(Drop)]
struct Layers<'a> {
    upper: &'a [Stretch],
    /// The section of the stretch before those of `upper`.
    above: Option<Section>,
    lower: &'a [Stretch],
    /// The section of the stretch before those of `lower`.
    below: Option<Section>,
}

impl<'a> Layers<'a> {
    /// The next stretch of both lists, None where both are passed.
    fn next(&mut self) -> Option<Stretch>
        ensures next { MatchOption result (overlay self.old.above self.old.upper.now self.old.below self.old.lower.now ≡ []) (λ x. overlay self.old.above self.old.upper.now self.old.below self.old.lower.now ≡ x ∷ overlay self.new.above self.new.upper.now self.new.below self.new.lower.now) }
        ensures shorter { IfSome result (λ _. length self.new.upper.now + length self.new.lower.now < length self.old.upper.now + length self.old.lower.now) }
    {
        if is_upper_next(self.upper, self.lower) {
            match self.upper.split_first() {
                None => None,
                Some((x, rest)) => {
                    self.upper = rest;
                    self.above = x.section;
                    Some(Stretch {
                        from: x.from,
                        section: x.section.or(self.below),
                    })
                }
            }
        } else {
            match self.lower.split_first() {
                None => None,
                Some((y, rest)) => {
                    self.lower = rest;
                    self.below = y.section;
                    Some(Stretch {
                        from: y.from,
                        section: self.above.or(y.section),
                    })
                }
            }
        }
    }
}

/// Whether the next stretch of two lists is the upper one's.
#[tactic(auto, unfolding(crate::specs::Stretches::is_upper_next))]
fn is_upper_next(upper: &[Stretch], lower: &[Stretch]) -> bool
    ensures { result ≡ is_upper_next upper.now lower.now }
{
    match (upper.first(), lower.first()) {
        (None, _) => false,
        (Some(_), None) => true,
        (Some(x), Some(y)) => x.from <= y.from,
    }
}

/// Two lists of stretches, the first laid over the second.
pub fn overlay(
    alloc: Global,
    upper: &[Stretch],
    lower: &[Stretch],
) -> Result<Vec<Stretch>, NoMemory>
    ensures { IfOk result (λ all. all.items ≡ overlay None upper.now None lower.now) }
{
    let mut rest = Layers {
        upper,
        above: None,
        lower,
        below: None,
    };
    let mut all = Vec::new(alloc);
    while let Some(stretch) = rest.next() {
        all.push(stretch)?;
    }
    Ok(all)
}

/// The section at an RVA.
pub fn find(stretches: &[Stretch], rva: u32) -> Option<Section>
    requires { AreAscending 0 stretches.now }
    ensures { result ≡ found None stretches.now rva }
{
    let rva = u64::from(rva);
    let passed = stretches.partition_point(|stretch| stretch.from <= rva);
    if passed == 0 {
        return None;
    }
    stretches[passed - 1].section
}
