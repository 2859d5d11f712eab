//! Equality of sources.

ghost use Rattle.std.specs.Prelude.{◌≡◌};
ghost use Rattle.rules.specs.flow_rules.Sources.{same_source};

use rules::flow_rules::Source;

/// Whether two sources are the same.
pub(crate) fn same_source(a: &Source, b: &Source) -> bool
    ensures { result ≡ same_source a.now b.now }
{
    match a {
        Source::KnownType(t) => match b {
            Source::KnownType(u) => t.0 == u.0,
            _ => false,
        },
        Source::KnownHandle(t) => match b {
            Source::KnownHandle(u) => t.0 == u.0,
            _ => false,
        },
        Source::KnownText(x) => match b {
            Source::KnownText(y) => x.as_slice() == y.as_slice(),
            _ => false,
        },
        Source::Null => match b {
            Source::Null => true,
            _ => false,
        },
        Source::Parameter(n) => match b {
            Source::Parameter(m) => n == m,
            _ => false,
        },
        Source::Return(m) => match b {
            Source::Return(n) => m.0 == n.0,
            _ => false,
        },
        Source::Field(f) => match b {
            Source::Field(g) => f.0 == g.0,
            _ => false,
        },
        Source::TypeParam(t, n) => match b {
            Source::TypeParam(u, m) => t.0 == u.0 && n == m,
            _ => false,
        },
        Source::MethodParam(n) => match b {
            Source::MethodParam(m) => n == m,
            _ => false,
        },
        Source::Opaque => match b {
            Source::Opaque => true,
            _ => false,
        },
    }
}
