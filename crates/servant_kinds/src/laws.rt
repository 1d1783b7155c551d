//! What holds of the arguments of every request.
ghost use Rattle.std.specs.Prelude.{◌≡◌, ℤ, ℕ, List, Option, Some, None};
ghost use Rattle.poa_base.specs.declared.Body.{Body};
ghost use Rattle.cdr_core.specs.declared.CdrFault.{CdrFault};
ghost use Rattle.cdr_core.specs.Kind.{LongLong, ULong, Octets, Text};
ghost use Rattle.cdr_core.specs.Field.{longlong, ulong, octets, text};
ghost use Rattle.cdr_core.specs.Cursor.{Cursor, Reads};
ghost use Rattle.cdr_core.specs.Refusal.{Refuses};
ghost use Rattle.servant_kinds.specs.Arguments.{start_of, longlong_of, ulong_of, octets_of, text_of};

/// An argument is the field that CDR spells at the front of the body.
pub fn arguments_are_fields()
    ensures longlong { (body : Body) (after : Cursor) (value : ℤ) → Reads (longlong value) (start_of body) after
        → longlong_of body ≡ Some value }
    ensures ulong { (body : Body) (after : Cursor) (value : ℕ) → Reads (ulong value) (start_of body) after → ulong_of body ≡ Some value }
    ensures octets { (body : Body) (after : Cursor) (value : List ℕ) → Reads (octets value) (start_of body) after
        → octets_of body ≡ Some value }
    ensures text { (body : Body) (after : Cursor) (value : List ℕ) → Reads (text value) (start_of body) after → text_of body ≡ Some value }
{}

/// An argument can't be read exactly where CDR refuses it.
pub fn refused_arguments_are_none()
    ensures longlong { (body : Body) (fault : CdrFault) → Refuses LongLong (start_of body) fault → longlong_of body ≡ None }
    ensures ulong { (body : Body) (fault : CdrFault) → Refuses ULong (start_of body) fault → ulong_of body ≡ None }
    ensures octets { (body : Body) (fault : CdrFault) → Refuses Octets (start_of body) fault → octets_of body ≡ None }
    ensures text { (body : Body) (fault : CdrFault) → Refuses Text (start_of body) fault → text_of body ≡ None }
{}
