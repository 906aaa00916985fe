use std::marker::Brand;

/// The moment to which a keeper moves on. Each call picks it.
pub trait Mark {
    ghost use Rattle.bz_past.specs.declared.view.Moment.{Moment};

    ghost moment: { Moment };
}

impl Mark for Brand {
    ghost use Rattle.std.specs.Prelude.{false, []};
    ghost use Rattle.bz_past.specs.Moments.{moment};
    ghost use Rattle.bz_past.specs.Seen.{nothing};

    ghost moment = { moment nothing false [] };
}
