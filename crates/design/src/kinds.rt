// What a design file has as numbers: the kinds of values and of methods, the tags of expressions, operators and statements.
ghost use Rattle.design.specs.Kinds.{IsKind, IsRole, IsTag, IsOperator, IsStatement};

// "result (0 Void, 1 Num, 2 Bool)". Any other number is taken for Bool's.
#[derive(Clone, Copy, PartialEq, Eq)]
pub enum Kind {
    Void,
    Num,
    Bool,
}

// "kind (0 V, 1 A, 2 AV)". Any other number is taken for AV's.
#[derive(Clone, Copy, PartialEq, Eq)]
pub enum Role {
    Value,
    Action,
    ActionValue,
}

impl From<u8> for Kind {
    ghost from_gives = { λ n r. IsKind n r };

    #[tactic(auto, unfolding(crate::specs::Kinds::kind, crate::specs::Records::kind_of, crate::specs::Take::pick))]
    fn from(n: u8) -> Kind {
        match n {
            0 => Kind::Void,
            1 => Kind::Num,
            _ => Kind::Bool,
        }
    }
}

impl From<u8> for Role {
    ghost from_gives = { λ n r. IsRole n r };

    #[tactic(auto, unfolding(crate::specs::Kinds::role, crate::specs::Records::role_of, crate::specs::Take::pick))]
    fn from(n: u8) -> Role {
        match n {
            0 => Role::Value,
            1 => Role::Action,
            _ => Role::ActionValue,
        }
    }
}

// A byte that names nothing of its sort.
#[derive(Clone, Copy, PartialEq, Eq)]
pub struct Unknown;

// What an expression is, by its first byte.
#[derive(Clone, Copy, PartialEq, Eq)]
pub enum Tag {
    Number,
    Truth,
    Local,
    Operator,
    Choice,
    Guarded,
    Block,
    Call,
    Display,
}

impl TryFrom<u8> for Tag {
    type Error = Unknown;

    ghost try_from_gives = { λ n r. IsTag n r };

    #[tactic(auto, using(crate::proofs::Heads::is_unknown), unfolding(crate::specs::Kinds::tag, crate::specs::Grammar::tag_of, crate::specs::Take::pick))]
    fn try_from(n: u8) -> Result<Tag, Unknown> {
        match n {
            1 => Ok(Tag::Number),
            2 => Ok(Tag::Truth),
            3 => Ok(Tag::Local),
            4 => Ok(Tag::Operator),
            5 => Ok(Tag::Choice),
            6 => Ok(Tag::Guarded),
            7 => Ok(Tag::Block),
            10 => Ok(Tag::Call),
            11 => Ok(Tag::Display),
            _ => Err(Unknown),
        }
    }
}

#[derive(Clone, Copy, PartialEq, Eq)]
pub enum Operator {
    Plus,
    Minus,
    Equal,
    Less,
    And,
    Or,
    Not,
}

impl TryFrom<u8> for Operator {
    type Error = Unknown;

    ghost try_from_gives = { λ n r. IsOperator n r };

    #[tactic(auto, using(crate::proofs::Heads::no_operation), unfolding(crate::specs::Kinds::operation, crate::specs::Grammar::operation_of, crate::specs::Take::pick))]
    fn try_from(n: u8) -> Result<Operator, Unknown> {
        match n {
            0 => Ok(Operator::Plus),
            1 => Ok(Operator::Minus),
            2 => Ok(Operator::Equal),
            3 => Ok(Operator::Less),
            4 => Ok(Operator::And),
            5 => Ok(Operator::Or),
            6 => Ok(Operator::Not),
            _ => Err(Unknown),
        }
    }
}

// "A statement is 08 (let) or 09 (do) and an expression"
#[derive(Clone, Copy, PartialEq, Eq)]
pub enum Statement {
    Let,
    Do,
}

impl TryFrom<u8> for Statement {
    type Error = Unknown;

    ghost try_from_gives = { λ n r. IsStatement n r };

    fn try_from(n: u8) -> Result<Statement, Unknown> {
        match n {
            8 => Ok(Statement::Let),
            9 => Ok(Statement::Do),
            _ => Err(Unknown),
        }
    }
}
