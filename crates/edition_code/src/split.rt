ghost use Rattle.std.specs.Prelude.{◌≡◌, ◌∷◌, [], None, IfSome};

/// The first of these, and those after it.
pub(crate) fn split<T>(items: &[T]) -> Option<(&T, &[T])>
    ensures some { IfSome result (λ x. items.now ≡ x.0.now ∷ x.1.now) }
    ensures none { result ≡ None → items.now ≡ [] }
{
    match items {
        [first, rest @ ..] => Some((first, rest)),
        [] => None,
    }
}
