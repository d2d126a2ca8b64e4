//! Examples of guided terms that the definitions decide.
ghost use Rattle.guided_terms.specs.Examples.{CaseOfTruth, FolderInWrittenOrder, FunctionIsOpen, FunctionThatWaits, IdOfThree, RestKeepsItsOrder, ShowOfThree, TextInBody};

/// `id 3` is `id [int] 3`.
pub fn a_constructor_is_inserted()
    ensures { IdOfThree }
{}

/// `show 3` is `show [int] show_int 3`.
pub fn an_instance_is_inserted()
    ensures { ShowOfThree }
{}

/// `case b of True => 3 | False => 4` is an `int`.
pub fn a_case_has_the_type_of_its_branches()
    ensures { CaseOfTruth }
{}

/// In `f (fn x => x) 3` the function waits for the number, which tells what its parameter is.
pub fn a_function_waits_for_another_argument()
    ensures { FunctionThatWaits }
{}

/// `<xml>a</xml>` stands in a body.
pub fn a_text_stands_in_a_body()
    ensures { TextInBody }
{}

/// What is found for the rest of a row has the order of the type that is matched.
pub fn what_is_left_of_a_row_keeps_its_order()
    ensures { RestKeepsItsOrder }
{}

/// `fn x => x` alone has no type.
pub fn a_function_alone_has_no_type()
    ensures { FunctionIsOpen }
{}

/// `count {B = 3, A = "a"}` is given the folder of `B` and then `A`.
pub fn a_folder_lists_fields_in_the_written_order()
    ensures { FolderInWrittenOrder }
{}
