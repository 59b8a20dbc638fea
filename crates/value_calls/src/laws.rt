ghost use Rattle.value_calls.specs.Laws.{MakesLight, OperatesLight, RemovesInserted};

/// What is made weighs no more than the limit of one value.
pub fn makes_light()
    ensures { MakesLight }
{}

/// What an operator of two values answers weighs no more than the limit of one value.
pub fn operates_light()
    ensures { OperatesLight }
{}

/// To remove what was inserted gives the list and the item back.
pub fn removes_inserted()
    ensures { RemovesInserted }
{}
