//! The kinds of faults of texts of models.
ghost use Rattle.std.specs.Prelude.{◌≡◌, ◌≤◌, length};

use cip_lp::LpKind;
use cip_mps::MpsKind;

/// A kind of fault of a text of a model.
#[derive(Clone, Copy)]
pub enum ModelKind {
    /// Of a text of free MPS.
    Mps(MpsKind),
    /// Of an LP text.
    Lp(LpKind),
}

impl From<MpsKind> for ModelKind {
    ghost use Rattle.std.specs.Prelude.{◌≡◌};
    ghost use Rattle.cip_input.specs.declared.model_kinds.ModelKind.{ModelKind};

    ghost from_gives = { λ kind made. made ≡ ModelKind.Mps kind };

    fn from(kind: MpsKind) -> ModelKind {
        ModelKind::Mps(kind)
    }
}

impl From<LpKind> for ModelKind {
    ghost use Rattle.std.specs.Prelude.{◌≡◌};
    ghost use Rattle.cip_input.specs.declared.model_kinds.ModelKind.{ModelKind};

    ghost from_gives = { λ kind made. made ≡ ModelKind.Lp kind };

    fn from(kind: LpKind) -> ModelKind {
        ModelKind::Lp(kind)
    }
}

impl ModelKind {
    ghost use Rattle.cip_input.specs.Models.{model_kind_text};

    /// The number and the name of the kind, as they are printed.
    pub fn text(self) -> &'static str
        ensures text { result.now ≡ model_kind_text self }
        ensures short { length result.now ≤ 20 }
    {
        match self {
            ModelKind::Mps(kind) => kind.text(),
            ModelKind::Lp(kind) => kind.text(),
        }
    }
}
