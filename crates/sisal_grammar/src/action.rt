//! What each production means.

ghost use Rattle.std.specs.Prelude.{◌≡◌, slice_index_or};
ghost use Rattle.sisal_grammar.specs.Plan.{plan};

/// The action of a production: what it makes of the values of its symbols.
#[derive(Clone, Copy)]
pub enum Action {
    /// `unit = "define" @name names semi items`
    Whole,
    /// `names =`
    NoNames,
    /// `names = "," @name names`
    MoreNames,
    /// `semi =` and the like
    Absent,
    /// `semi = ";"`
    Sign,
    /// `items =`
    NoItems,
    /// `items = item items`
    MoreItems,
    /// `item = "type" @name "=" type semi`
    Alias,
    /// `item = "forward" "function" header semi`
    Forward,
    /// `item = "global" header semi`
    Global,
    /// `item = "function" header exprs "end" "function" semi`
    Defined,
    /// `type = "integer"` and the like
    Basic,
    /// `type = "array" "[" type "]"` and the like
    Listed,
    /// `type = "record" "[" field fields "]"`
    Fielded,
    /// `type = "union" "[" tagf tagfs "]"`
    Tagged,
    /// `fields =` and the like
    NoFields,
    /// `fields = ";" fields_more`
    SemiFields,
    /// `fields_more = field fields`
    MoreFields,
    /// `field = @name names ":" type`
    OneField,
    /// `tagfs = ";" tagfs_more`
    SemiTags,
    /// `tagfs_more = tagf tagfs`
    MoreTags,
    /// `tagf = @name names tag_type`
    OneTag,
    /// `tag_type = ":" type`
    TypedTag,
    /// `header = @name "(" fields_more "returns" type types ")"`
    OneHeader,
    /// `types =`
    NoTypes,
    /// `types = "," type types`
    MoreTypes,
    /// `exprs = expr exprs_more`
    Exprs,
    /// `exprs_more =` and the like
    NoExprs,
    /// `exprs_more = "," expr exprs_more`
    MoreExprs,
    /// `args = exprs`
    SameExprs,
    /// `expr = conj expr_more` and the like
    Chain,
    /// `expr_more =` and the like
    NoTail,
    /// `expr_more = "|" conj expr_more` and the like
    MoreTail,
    /// `inv = "~" inv` and the like
    Prefix,
    /// `inv = rel` and the like
    SameExpr,
    /// `rel_more = "=" cat` and the like
    OneTail,
    /// `post = prim posts` and the like
    Posted,
    /// `posts =`
    NoPosts,
    /// `posts = selector posts`
    MorePosts,
    /// `selector = "[" expr index`
    Bracket,
    /// `selector = "." @name`
    Dot,
    /// `selector = "replace" "[" fv fvs "]"`
    Replaced,
    /// `index = "]"`
    CloseBracket,
    /// `index = "," expr exprs_more "]"`
    MoreBracket,
    /// `index = ":" expr "]"`
    ColonBracket,
    /// `fv = @name ":" expr`
    OneValue,
    /// `fvs =` and the like
    NoValues,
    /// `fvs = ";" fvs_more`
    SemiValues,
    /// `fvs_more = fv fvs`
    MoreValues,
    /// `prim = @name call`
    NameOrCall,
    /// `call =` and the like
    NoCall,
    /// `call = "(" args ")"`
    Call,
    /// `other = @number` and the like
    Literal,
    /// `other = "old" @name`
    Old,
    /// `other = "integer" "(" expr ")"` and the like
    Convert,
    /// `other = "(" expr ")"`
    Group,
    /// `other = "error" "[" type "]"`
    ErrorOf,
    /// `other = "is" is_what "(" expr ")"`
    Is,
    /// `other = "array" named "[" elements "]"`
    Array,
    /// `other = "stream" named "[" args "]"`
    Stream,
    /// `other = "record" named "[" fv fvs "]"`
    Record,
    /// `other = "union" @name "[" @name content "]"`
    Union,
    /// `other = "let" defs "in" exprs "end" "let"`
    Let,
    /// `other = "if" expr "then" exprs elses "end" "if"`
    If,
    /// `other = "tagcase" subject arm arms otherwise "end" "tagcase"`
    Case,
    /// `other = "for" loop "end" "for"`
    For,
    /// `is_what = "error"`
    WordName,
    /// `is_what = @name` and the like
    AName,
    /// `named =` and the like
    NoName,
    /// `elements =`
    NoElements,
    /// `elements = expr ":" exprs`
    SomeElements,
    /// `content =` and the like
    NoExpr,
    /// `content = ":" expr` and the like
    SomeExpr,
    /// `elses = "elseif" expr "then" exprs elses`
    ElseIf,
    /// `elses = "else" exprs`
    Else,
    /// `subject = @name subject_more`
    NameSubject,
    /// `subject = o_expr`
    OtherSubject,
    /// `subject_more = ":=" expr`
    Bound,
    /// `subject_more = call posts term_more sum_more cat_more rel_more conj_more expr_more`
    Rest,
    /// `arms =`
    NoArms,
    /// `arms = arm arms`
    MoreArms,
    /// `arm = "tag" @name names ":" exprs`
    OneArm,
    /// `otherwise = "otherwise" ":" exprs`
    Otherwise,
    /// `loop = group groups body "returns" clause clauses`
    Product,
    /// `loop = "initial" defs turn "returns" clause clauses`
    Initial,
    /// `groups =`
    NoGroups,
    /// `groups = "cross" group groups`
    MoreGroups,
    /// `group = gen gens`
    Gens,
    /// `gens =`
    NoGens,
    /// `gens = "dot" gen gens`
    MoreGens,
    /// `gen = @name "in" expr to at`
    OneGen,
    /// `at = "at" @name`
    AtName,
    /// `body =` and the like
    NoDefs,
    /// `body = defs`
    SameDefs,
    /// `defs = def defs_more` and the like
    Defs,
    /// `defs_more = ";" defs_rest`
    SemiDefs,
    /// `def = target targets ":=" exprs`
    OneDef,
    /// `targets =`
    NoTargets,
    /// `targets = "," target targets`
    MoreTargets,
    /// `target = @name of_type`
    OneTarget,
    /// `of_type =`
    NoType,
    /// `of_type = ":" type`
    SomeType,
    /// `turn = test "repeat" defs`
    TestFirst,
    /// `turn = "repeat" defs test`
    TestLast,
    /// `test = "while" expr` and the like
    OneTest,
    /// `clauses =`
    NoClauses,
    /// `clauses = clause clauses`
    MoreClauses,
    /// `clause = "array" "of" expr mask` and the like
    Gathered,
    /// `clause = "value" "of" fold expr mask`
    Valued,
    /// `fold =`
    NoFold,
    /// `fold = red`
    PlainFold,
    /// `fold = "left" red` and the like
    Directed,
    /// `red = "sum"` and the like
    Reduced,
    /// `mask =`
    NoMask,
    /// `mask = "when" expr` and the like
    SomeMask,
}

/// The action of each production.
pub static ACTIONS: [Action; 187] = [
    Action::Whole,
    Action::NoNames,
    Action::MoreNames,
    Action::Absent,
    Action::Sign,
    Action::NoItems,
    Action::MoreItems,
    Action::Alias,
    Action::Forward,
    Action::Global,
    Action::Defined,
    Action::Basic,
    Action::Basic,
    Action::Basic,
    Action::Basic,
    Action::Basic,
    Action::Basic,
    Action::Basic,
    Action::Listed,
    Action::Listed,
    Action::Fielded,
    Action::Tagged,
    Action::NoFields,
    Action::SemiFields,
    Action::NoFields,
    Action::MoreFields,
    Action::OneField,
    Action::Absent,
    Action::SemiTags,
    Action::Absent,
    Action::MoreTags,
    Action::OneTag,
    Action::Absent,
    Action::TypedTag,
    Action::OneHeader,
    Action::NoTypes,
    Action::MoreTypes,
    Action::Exprs,
    Action::NoExprs,
    Action::MoreExprs,
    Action::NoExprs,
    Action::SameExprs,
    Action::Chain,
    Action::NoTail,
    Action::MoreTail,
    Action::Chain,
    Action::NoTail,
    Action::MoreTail,
    Action::Prefix,
    Action::SameExpr,
    Action::Chain,
    Action::NoTail,
    Action::OneTail,
    Action::OneTail,
    Action::OneTail,
    Action::OneTail,
    Action::OneTail,
    Action::OneTail,
    Action::Chain,
    Action::NoTail,
    Action::MoreTail,
    Action::Chain,
    Action::NoTail,
    Action::MoreTail,
    Action::MoreTail,
    Action::Chain,
    Action::NoTail,
    Action::MoreTail,
    Action::MoreTail,
    Action::Prefix,
    Action::SameExpr,
    Action::Posted,
    Action::NoPosts,
    Action::MorePosts,
    Action::Bracket,
    Action::Dot,
    Action::Replaced,
    Action::CloseBracket,
    Action::MoreBracket,
    Action::ColonBracket,
    Action::OneValue,
    Action::NoValues,
    Action::SemiValues,
    Action::NoValues,
    Action::MoreValues,
    Action::NameOrCall,
    Action::SameExpr,
    Action::NoCall,
    Action::Call,
    Action::Literal,
    Action::Literal,
    Action::Literal,
    Action::Literal,
    Action::Literal,
    Action::Literal,
    Action::Old,
    Action::Convert,
    Action::Convert,
    Action::Convert,
    Action::Group,
    Action::ErrorOf,
    Action::Is,
    Action::Array,
    Action::Stream,
    Action::Record,
    Action::Union,
    Action::Let,
    Action::If,
    Action::Case,
    Action::For,
    Action::WordName,
    Action::AName,
    Action::NoName,
    Action::AName,
    Action::NoElements,
    Action::SomeElements,
    Action::NoExpr,
    Action::SomeExpr,
    Action::ElseIf,
    Action::Else,
    Action::NameSubject,
    Action::OtherSubject,
    Action::Bound,
    Action::Rest,
    Action::Chain,
    Action::Chain,
    Action::Prefix,
    Action::SameExpr,
    Action::Chain,
    Action::Chain,
    Action::Chain,
    Action::Chain,
    Action::Prefix,
    Action::SameExpr,
    Action::Posted,
    Action::NoArms,
    Action::MoreArms,
    Action::OneArm,
    Action::NoCall,
    Action::Otherwise,
    Action::Product,
    Action::Initial,
    Action::NoGroups,
    Action::MoreGroups,
    Action::Gens,
    Action::NoGens,
    Action::MoreGens,
    Action::OneGen,
    Action::NoExpr,
    Action::SomeExpr,
    Action::NoName,
    Action::AtName,
    Action::NoDefs,
    Action::SameDefs,
    Action::Defs,
    Action::NoDefs,
    Action::SemiDefs,
    Action::NoDefs,
    Action::Defs,
    Action::OneDef,
    Action::NoTargets,
    Action::MoreTargets,
    Action::OneTarget,
    Action::NoType,
    Action::SomeType,
    Action::TestFirst,
    Action::TestLast,
    Action::OneTest,
    Action::OneTest,
    Action::NoClauses,
    Action::MoreClauses,
    Action::Gathered,
    Action::Gathered,
    Action::Valued,
    Action::NoFold,
    Action::PlainFold,
    Action::Directed,
    Action::Directed,
    Action::Directed,
    Action::Reduced,
    Action::Reduced,
    Action::Reduced,
    Action::Reduced,
    Action::Reduced,
    Action::NoMask,
    Action::SomeMask,
    Action::SomeMask,
];

/// The action of a production.
#[tactic(auto, unfolding(crate::specs::Plan::plan))]
pub fn action_of(production: u8) -> Action
    ensures { result ≡ plan.action production }
{
    action_in(&ACTIONS, production)
}

/// The action at a place of a table.
fn action_in(actions: &[Action], production: u8) -> Action
    ensures { result ≡ slice_index_or actions.now production Action.Absent }
{
    match actions.get(production as usize) {
        Some(action) => *action,
        None => Action::Absent,
    }
}
