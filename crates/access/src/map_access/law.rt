ghost use Rattle.access.specs.Calls.{ListLaw};

// The law over runs of calls on a member list: no token is taken by two accepted reads; every token passed is taken, or is the
// one `=` after a key or the one comma after a value; once a finish is accepted every token has been passed.
pub fn list_law()
    ensures { ListLaw }
{}
