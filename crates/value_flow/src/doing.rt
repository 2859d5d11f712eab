use crate::numbers::number_in;
use il_base::NoMemory;
use rules::flow_rules::{Move, Source, Turning};

/// What an instruction does with sources, with the source that it makes.
#[derive(Drop)]
pub(crate) enum Doing {
    Load(u32),
    Store(u32),
    Twice,
    Back,
    Make(Source),
    Turn(Turning),
    Nothing,
}

impl Doing {
    ghost use Rattle.std.specs.Prelude.{◌≡◌, IfOk};
    ghost use Rattle.value_flow.specs.Numbers.{numbered_move};
    ghost use Rattle.value_flow.specs.Doings.{move_in};

    /// The same with the number of its source.
    pub(crate) fn numbered(&self, sources: &[Source]) -> Result<Move<u32>, NoMemory>
        ensures { IfOk result (λ m. m ≡ numbered_move sources.now (move_in self.now)) }
    {
        match self {
            Doing::Load(n) => Ok(Move::Load(*n)),
            Doing::Store(n) => Ok(Move::Store(*n)),
            Doing::Twice => Ok(Move::Twice),
            Doing::Back => Ok(Move::Back),
            Doing::Make(s) => match number_in(sources, s) {
                Err(error) => Err(error),
                Ok(n) => Ok(Move::Make(n)),
            },
            Doing::Turn(t) => Ok(Move::Turn(*t)),
            Doing::Nothing => Ok(Move::Nothing),
        }
    }
}
