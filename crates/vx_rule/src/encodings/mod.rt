//! The rules of each encoding, one module each.

mod chunked;
mod column;
mod constant;
mod dict;
mod filter;
mod interleave;
mod masked;
mod scalar_fn;
mod scalar_fn_validity;
mod slice;

pub use column::CanonicalEncoding;

/// Returns from the function with the answer of the first `$rule` that has one for `$array`; evaluates to `Ok(None)` if none
/// has.
macro_rules! own_rules {
    ($alloc:expr, $array:expr; $($rule:expr),+) => {{
        $(
            if let Some(raw) = $rule.reduce($alloc, $array)? {
                return Ok(Some(raw));
            }
        )+
        Ok(None)
    }};
}

/// Returns from the function with the answer of the first `$rule` that covers `$parent`; evaluates to `Ok(None)` if none does.
macro_rules! parent_rules {
    ($encoding:ident, $alloc:expr, $child:expr, $parent:expr, $slot:expr; $($rule:ident),+) => {{
        $(
            if <<$rule<$encoding> as crate::rule::ArrayParentReduceRule<$encoding>>::Parent as vx_tree::Matcher>::matches($parent) {
                let rule = $rule(<$encoding>::tag($child.data()));
                return crate::ParentReduceRuleAdapter::new(rule).reduce_parent($alloc, $child, $parent, $slot);
            }
        )+
        Ok(None)
    }};
}

pub(crate) use own_rules;
pub(crate) use parent_rules;
