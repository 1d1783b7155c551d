//! Laws of what links give, and of the path of a reference. The functions do nothing: their contracts are the laws.
ghost use Rattle.giop_client.specs.Laws.{OneHop, LinksAreAFront};

/// The bytes of a link say one thing to a request.
pub fn one_hop()
    ensures { OneHop }
{}

/// The links of a call are the first ones of the path of its reference, each once and in order, and each took a front of
/// the request that the path has there.
pub fn links_are_a_front_of_the_path()
    ensures { LinksAreAFront }
{}
