//! Why worked nodes are refused, each for the first reason: their slots, then types, then lengths and ranges, then values.

ghost use Rattle.std.specs.Prelude.{◌≡◌, ◌^◌, pos, true, [], ◌∷◌, Some, None};
ghost use Rattle.vx_value.specs.Types as type;
ghost use Rattle.vx_value.specs.declared.dtype.PType.TheVariants.{I32};
ghost use Rattle.vx_value.specs.declared.dtype.Nullability.TheVariants.{NonNullable, Nullable};
ghost use Rattle.vx_value.specs.declared.decimal.DecimalType.TheVariants.{I16};
ghost use Rattle.vx_value.specs.declared.id.Id.TheVariants as id;
ghost use Rattle.vx_value.specs.declared.error.VortexError.TheVariants.{OutOfBounds, TooLong};
ghost use Rattle.vx_value.specs.declared.error.ArgKind.TheVariants.{SlotCount, SlotMissing, SlotType, SlotLen, FnSlotMissing};
ghost use Rattle.vx_value.specs.declared.error.ArgKind.TheVariants.{Arity, ChildLen, NoChildren, NoRow};
ghost use Rattle.vx_value.specs.declared.error.ArgKind.TheVariants.{NodeType, NodeLen, MaskLen, BadType, BadValue};
ghost use Rattle.vx_tree.specs.Tree.{function, dict, chunked, interleave, chunks_refusal, nulls, booleans};
ghost use Rattle.vx_tree.specs.Well.{shape};
ghost use Rattle.vx_tree.specs.Refusals.{refusal};
ghost use Rattle.vx_tree.specs.Validities.{decimal_refusal, bytes_refusal};
ghost use Rattle.vx_tree.specs.Views.{packed};
ghost use Rattle.vx_tree.specs.Calls.{inferred_refusal};
ghost use Rattle.vx_tree.specs.declared.validity.Validity.TheVariants as validity;
ghost use Rattle.vx_tests.specs.Parts.{i32, nullable, i8, u8, bool, decimal, two, three, flags, because};
ghost use Rattle.vx_tests.specs.Parts.{add, all_of_three, from_two_to_five, one_and_two, seven, argument};

/// States why filters of three rows and slices from row 2 to row 5 are refused.
pub fn worked_lazy_nodes()
    ensures filter_slots { refusal id.Filter nullable 9 all_of_three [] ≡ because SlotCount }
    ensures filter_missing { refusal id.Filter nullable 9 all_of_three (None ∷ []) ≡ because (SlotMissing 0) }
    ensures filter_type { refusal id.Filter nullable 9 all_of_three (two ∷ []) ≡ because NodeType }
    ensures filter_mask { refusal id.Filter i32 9 all_of_three (two ∷ []) ≡ because (MaskLen 2 3) }
    ensures filter_len { refusal id.Filter i32 9 all_of_three (three ∷ []) ≡ because NodeLen }
    ensures filter_fits { refusal id.Filter i32 3 all_of_three (three ∷ []) ≡ None }
    ensures slice_slots { refusal id.Slice nullable 9 from_two_to_five [] ≡ because SlotCount }
    ensures slice_missing { refusal id.Slice nullable 9 from_two_to_five (None ∷ []) ≡ because (SlotMissing 0) }
    ensures slice_type { refusal id.Slice nullable 9 from_two_to_five (three ∷ []) ≡ because NodeType }
    ensures slice_len { refusal id.Slice i32 9 from_two_to_five (three ∷ []) ≡ because NodeLen }
    ensures slice_bounds { refusal id.Slice i32 3 from_two_to_five (three ∷ []) ≡ Some (OutOfBounds 2 5 3) }
    ensures slice_fits { refusal id.Slice i32 3 from_two_to_five (Some (shape i32 5) ∷ []) ≡ None }
{}

/// States why columns of two rows, constants and nulls are refused.
pub fn worked_columns()
    ensures column_slots { refusal id.Primitive nullable 9 one_and_two [] ≡ because SlotCount }
    ensures column_values { refusal id.Primitive u8 9 one_and_two (three ∷ []) ≡ because BadType }
    ensures column_validity { refusal id.Primitive i32 9 one_and_two (flags ∷ []) ≡ because (SlotType 0) }
    ensures column_flags { refusal id.Primitive nullable 9 one_and_two (three ∷ []) ≡ because (SlotType 0) }
    ensures column_len { refusal id.Primitive nullable 9 one_and_two (flags ∷ []) ≡ because NodeLen }
    ensures column_validity_len { refusal id.Primitive nullable 2 one_and_two (flags ∷ []) ≡ because (SlotLen 0) }
    ensures nullable_column_fits { refusal id.Primitive nullable 2 one_and_two (Some (shape bool 2) ∷ []) ≡ None }
    ensures column_fits { refusal id.Primitive i32 2 one_and_two (None ∷ []) ≡ None }
    ensures constant_type { refusal id.Constant bool 1 seven [] ≡ because NodeType }
    ensures constant_fits { refusal id.Constant i32 1 seven [] ≡ None }
    ensures nulls_type { refusal id.Null i32 2 nulls [] ≡ because BadType }
    ensures nulls_fit { refusal id.Null type.null 2 nulls [] ≡ None }
{}

/// States why columns of decimals and of text are refused; their values are checked last.
pub fn worked_values()
    ensures digits { decimal_refusal (decimal 2) I16 (pos 123 ∷ pos 123 ∷ []) validity.NonNullable ≡ because BadValue }
    ensures width { decimal_refusal (decimal 5) I16 (pos 123 ∷ pos 123 ∷ []) validity.NonNullable ≡ because BadValue }
    ensures decimals_fit { decimal_refusal (decimal 4) I16 (pos 123 ∷ pos 123 ∷ []) validity.NonNullable ≡ None }
    ensures decimal_type { decimal_refusal i32 I16 (pos 123 ∷ pos 123 ∷ []) validity.NonNullable ≡ because BadType }
    ensures decimal_validity { decimal_refusal (type.decimal 2 1 Nullable) I16 (pos 123 ∷ pos 123 ∷ [])
        (validity.Array (booleans (true ∷ []))) ≡ because (SlotLen 0) }
    ensures text_type { bytes_refusal bool (packed ((97 ∷ []) ∷ (97 ∷ []) ∷ [])) validity.NonNullable ≡ because BadType }
    ensures text_validity { bytes_refusal (type.utf8 Nullable) (packed ((255 ∷ []) ∷ (255 ∷ []) ∷ []))
        (validity.Array (booleans (true ∷ []))) ≡ because (SlotLen 0) }
{}

/// States why nodes of parts that name a sum are refused, and why calls of a sum are.
pub fn worked_functions()
    ensures missing { refusal id.Not bool 9 (function add) (three ∷ None ∷ []) ≡ because FnSlotMissing }
    ensures missing_first { refusal id.Not bool 9 (function add) (None ∷ []) ≡ because FnSlotMissing }
    ensures arity { refusal id.Not bool 9 (function add) (three ∷ []) ≡ because (Arity 2 1) }
    ensures another_id { refusal id.Not bool 9 (function add) (flags ∷ flags ∷ []) ≡ because NodeType }
    ensures no_row { refusal id.Binary bool 9 (function add) (flags ∷ flags ∷ []) ≡ because NoRow }
    ensures another_type { refusal id.Binary bool 9 (function add) (three ∷ three ∷ []) ≡ because NodeType }
    ensures lengths { refusal id.Binary i32 9 (function add) (three ∷ three ∷ []) ≡ because ChildLen }
    ensures no_children { inferred_refusal add [] ≡ because NoChildren }
    ensures one_child { inferred_refusal add (argument bool 3 ∷ []) ≡ because (Arity 2 1) }
    ensures three_children { inferred_refusal add (argument i32 3 ∷ argument i32 2 ∷ argument bool 1 ∷ []) ≡ because (Arity 2 3) }
    ensures child_lengths { inferred_refusal add (argument i32 3 ∷ argument i32 2 ∷ []) ≡ because ChildLen }
    ensures lengths_before_types { inferred_refusal add (argument u8 3 ∷ argument i8 2 ∷ []) ≡ because ChildLen }
    ensures two_types { inferred_refusal add (argument u8 3 ∷ argument i8 3 ∷ []) ≡ because NoRow }
    ensures of_booleans { inferred_refusal add (argument bool 3 ∷ argument bool 3 ∷ []) ≡ because NoRow }
    ensures call_fits { inferred_refusal add (argument i32 3 ∷ argument i32 3 ∷ []) ≡ None }
{}

/// States why dictionaries, chunks and interleaved rows are refused.
pub fn worked_lookups()
    ensures dict_slots { refusal id.Dict i32 9 dict (three ∷ []) ≡ because SlotCount }
    ensures dict_missing { refusal id.Dict i32 9 dict (three ∷ None ∷ []) ≡ because (SlotMissing 1) }
    ensures dict_codes { refusal id.Dict i32 9 dict (flags ∷ three ∷ []) ≡ because (SlotType 0) }
    ensures dict_type { refusal id.Dict nullable 9 dict (three ∷ two ∷ []) ≡ because NodeType }
    ensures dict_len { refusal id.Dict i32 9 dict (three ∷ two ∷ []) ≡ because NodeLen }
    ensures dict_fits { refusal id.Dict i32 3 dict (three ∷ two ∷ []) ≡ None }
    ensures dict_of_null_codes { refusal id.Dict nullable 2 dict (Some (shape nullable 2) ∷ three ∷ []) ≡ None }
    ensures chunk_missing { refusal id.Chunked i32 9 chunked (three ∷ None ∷ []) ≡ because (SlotMissing 1) }
    ensures chunk_type { refusal id.Chunked i32 9 chunked (three ∷ flags ∷ []) ≡ because (SlotType 1) }
    ensures chunks_len { refusal id.Chunked i32 4 chunked (three ∷ two ∷ []) ≡ because NodeLen }
    ensures chunks_fit { refusal id.Chunked i32 5 chunked (three ∷ two ∷ []) ≡ None }
    ensures no_chunks_fit { refusal id.Chunked i32 0 chunked [] ≡ None }
    ensures chunks_too_long { chunks_refusal i32 (argument i32 (2 ^ 63) ∷ argument i32 (2 ^ 63) ∷ []) ≡ Some (TooLong (2 ^ 63) (2 ^ 63)) }
    ensures interleave_slots { refusal id.Interleave i32 9 interleave (three ∷ three ∷ []) ≡ because SlotCount }
    ensures interleave_missing { refusal id.Interleave i32 9 interleave (three ∷ three ∷ None ∷ []) ≡ because (SlotMissing 2) }
    ensures interleave_nulls { refusal id.Interleave i32 9 interleave (Some (shape nullable 3) ∷ flags ∷ two ∷ []) ≡ because (SlotType 0) }
    ensures interleave_rows { refusal id.Interleave i32 9 interleave (three ∷ flags ∷ two ∷ []) ≡ because (SlotType 1) }
    ensures interleave_types { refusal id.Interleave i32 9 interleave (three ∷ two ∷ two ∷ flags ∷ []) ≡ because (SlotType 3) }
    ensures interleave_lens { refusal id.Interleave i32 9 interleave (three ∷ two ∷ two ∷ []) ≡ because (SlotLen 1) }
    ensures interleave_len { refusal id.Interleave i32 9 interleave (two ∷ two ∷ three ∷ []) ≡ because NodeLen }
    ensures interleave_fits { refusal id.Interleave i32 2 interleave (two ∷ two ∷ three ∷ []) ≡ None }
{}
