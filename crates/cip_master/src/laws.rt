//! A law of what is kept: the function does nothing, and its contract is the law.
ghost use Rattle.cip_master.specs.MasterSolving.{MastersStayKept};

/// A master program that is kept for a pool is kept for one that has grown at its end.
pub fn masters_stay_kept()
    ensures { MastersStayKept }
{}
