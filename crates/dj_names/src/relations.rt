//! What holds of the classes above a class, whatever the headers are.

ghost use Rattle.std.specs.Prelude.{List, ℕ, length};
ghost use Rattle.dj_names.specs.declared.header.Header.{Header};
ghost use Rattle.dj_names.specs.Headers.{HasSuperclass, HasParent, HasShortPath, IsSubclass, Implements};

/// A path of any length, also one in circles, can be cut to at most as many steps as there are
/// headers.
pub fn paths_can_be_cut()
    ensures subclass { (headers : List Header) (lower upper : List ℕ) → IsSubclass headers lower upper
        → HasShortPath (HasSuperclass headers) (length headers) lower upper }
    ensures implements { (headers : List Header) (lower upper : List ℕ) → Implements headers lower upper
        → HasShortPath (HasParent headers) (length headers) lower upper }
{}
