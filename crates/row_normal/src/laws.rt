//! Laws of normal forms. Each function does nothing; its contract holds of all constructors.

ghost use Rattle.row_normal.specs.Laws.{FieldsAreInOrder, NormalFormsAreEqual, NormalFormsStay, OrderOfWriting, OrderStays, PiecesAreInOrder, RefusalsHaveACause, RowsMayTurn};

/// A normal form is equal to what it comes from.
pub fn normal_forms_are_equal()
    ensures { NormalFormsAreEqual }
{}

/// Which side of `++` is written first does not matter.
pub fn order_of_writing()
    ensures { OrderOfWriting }
{}

/// Which side of `++` is written first does not matter to the normal form, nor to its units.
pub fn rows_may_turn()
    ensures { RowsMayTurn }
{}

/// Rows in order stay as they are.
pub fn order_stays()
    ensures { OrderStays }
{}

/// A normal form is its own normal form, at no units.
pub fn normal_forms_stay()
    ensures { NormalFormsStay }
{}

/// A refusal has one of two causes: the steps reach the units, or a constructor met is too deep.
pub fn refusals_have_a_cause()
    ensures { RefusalsHaveACause }
{}

/// The pieces of a row in normal form stand in order, as they are written: so a walk over them finds a field.
pub fn pieces_are_in_order()
    ensures { PiecesAreInOrder }
{}

/// The pieces of the row of a record in normal form stand in order, as they are written.
pub fn fields_are_in_order()
    ensures { FieldsAreInOrder }
{}
