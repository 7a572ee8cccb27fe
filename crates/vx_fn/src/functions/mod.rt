//! The scalar functions, each in a file of its own.

pub(crate) mod between;
pub(crate) mod binary;
pub(crate) mod cast;
pub(crate) mod fill_null;
pub(crate) mod get_item;
pub(crate) mod is_null;
pub(crate) mod list_contains;
pub(crate) mod mask;
pub(crate) mod not;
pub(crate) mod pack;
pub(crate) mod prepared_set;
pub(crate) mod zip;

/// Evaluates one expression over the function that a `ScalarFnRef` names:
/// `by_function!(self, function => function.signature())`.
macro_rules! by_function {
    ($named:expr, $function:ident => $body:expr) => {
        match $named {
            $crate::function::ScalarFnRef::Binary($function) => $body,
            $crate::function::ScalarFnRef::Between($function) => $body,
            $crate::function::ScalarFnRef::Not => { let $function = &$crate::functions::not::Not; $body }
            $crate::function::ScalarFnRef::Mask => { let $function = &$crate::functions::mask::Mask; $body }
            $crate::function::ScalarFnRef::Zip => { let $function = &$crate::functions::zip::Zip; $body }
            $crate::function::ScalarFnRef::FillNull => { let $function = &$crate::functions::fill_null::FillNull; $body }
            $crate::function::ScalarFnRef::IsNull => { let $function = &$crate::functions::is_null::NullTest::IsNull; $body }
            $crate::function::ScalarFnRef::IsNotNull => { let $function = &$crate::functions::is_null::NullTest::IsNotNull; $body }
            $crate::function::ScalarFnRef::GetItem($function) => $body,
            $crate::function::ScalarFnRef::Pack($function) => $body,
            $crate::function::ScalarFnRef::ListContains => { let $function = &$crate::functions::list_contains::ListContains; $body }
            $crate::function::ScalarFnRef::PreparedSet($function) => $body,
            $crate::function::ScalarFnRef::Cast($function) => $body,
        }
    };
}

pub(crate) use by_function;
