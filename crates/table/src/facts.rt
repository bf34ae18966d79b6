// A theorem about tables, as the contract of a function, so that the check asks for its proof.
ghost use Rattle.table.specs.Equations.{EquationsDefine};

// For every plan within the limits there is exactly one table whose labels all follow from those one step on: that of the jumps.
pub fn equations_define_the_table()
    ensures { EquationsDefine }
{}
