ghost use Rattle.validation.specs.Figures.{Figures};

/// Known figures agree with the definitions that the contracts are written in.
pub fn figures_stand()
    ensures { Figures }
{}
