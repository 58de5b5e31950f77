//! Laws of the definitions that the contracts cite. Each stands on a function with an empty body.
ghost use Rattle.std.specs.Prelude.{ℕ, List};
ghost use Rattle.pybuf_value.specs.declared.values.Scalar.{Scalar};
ghost use Rattle.std.specs.declared.cmp.Ordering.{Ordering};
ghost use Rattle.pybuf_value.specs.Equality.{counted, same_scalar, same_item};
ghost use Rattle.pybuf_value.specs.Order.{order_of};
ghost use Rattle.pybuf_value.specs.Laws.{ScalarEqualityIsEquivalence, ItemEqualityIsEquivalence, EqualWhereTheSame, counted_item, OrdersAll, OperatorsAgree, ReadBack, SpelledInAscii, EqualExactly};

/// Two values without parts are equal exactly where they are the same once each truth value is the
/// number that it counts as.
///
/// Example: 1 and true are equal, since both count as 1.
pub fn equal_scalars_count_alike()
    ensures { EqualWhereTheSame counted same_scalar }
{}

/// Two items are equal exactly where they are the same once each truth value is the number that it
/// counts as.
///
/// Example: the items `(1, 2)` and `(true, 2)` are equal, since both count as `(1, 2)`.
pub fn equal_items_count_alike()
    ensures { EqualWhereTheSame counted_item same_item }
{}

/// Equality of values without parts is reflexive, symmetric and transitive.
///
/// Example: as 1 equals true, true equals 1.
pub fn scalar_equality_is_equivalence()
    ensures { ScalarEqualityIsEquivalence }
{}

/// Equality of items is reflexive, symmetric and transitive.
///
/// Example: as the item `(1, 2)` equals `(true, 2)`, `(true, 2)` equals `(1, 2)`.
pub fn item_equality_is_equivalence()
    ensures { ItemEqualityIsEquivalence }
{}

/// The order of lists of bytes is total: of any two exactly one is less, or they are the same, and
/// what is less than a lesser one is less.
///
/// Example: of `b"ab"` and `b"b"` the first is less, and the second is neither less nor the same.
pub fn order_of_bytes_is_total()
    ensures { OrdersAll order_of }
{}

/// Exactly one of `<`, `==` and `>` answers true of two values in an order, and `!=`, `>=` and `<=`
/// deny these.
///
/// Example: of 1 and 2 `<` alone is true among `<`, `==` and `>`, and so are `!=` and `<=`, while `>=` is false.
pub fn operators_agree()
    ensures { (order : Ordering) → OperatorsAgree order }
{}

/// Reading a text between quotes gives back the bytes that it was made of. So no two strings of bytes
/// are printed alike.
///
/// Example: the text of `b"a\n"` between quotes is `'a\n'`, with a backslash and an `n`, which reads back as `b"a\n"`.
pub fn quoted_texts_read_back()
    ensures { (bytes : List ℕ) → ReadBack bytes }
{}

/// The text of each value without parts has bytes of ASCII alone.
///
/// Example: the text `é` is spelled `'\xc3\xa9'`.
pub fn values_are_spelled_in_ascii()
    ensures { (s : Scalar) → SpelledInAscii s }
{}

/// Values are equal by `==` exactly where they are the same.
///
/// Example: `Value::from(1) == Value::from(1)` is true, and `Value::from(1) == Value::from(true)` is false.
pub fn equal_values_are_the_same()
    ensures { EqualExactly }
{}
