//! Small types over `String` and `Vec` that contracts see as lists, so that a clause can compare a
//! struct which holds them with a value of a definition.

ghost use Rattle.std.specs.Prelude.{◌≡◌, map, nat_eq, string_bytes, IfOk};
ghost use Rattle.std.specs.List.{AllZip};
ghost use Rattle.std.specs.Cmp;
ghost use Rattle.std.specs.Cmp.Lexicographic.{pointwise, lists_per, lists_equiv, nat_list_eq_equiv};

use std::alloc::{AllocError, Global};
use std::marker::Model;

/// A text, which contracts see as its bytes.
#[derive(Debug, Drop)]
pub struct Text {
    plain: String,
}

impl Model for Text {
    ghost use Rattle.std.specs.Prelude.{List, ℕ, string_bytes};

    ghost Value = { List ℕ };

    ghost view = { λ text. string_bytes text.plain };
}

impl Text {
    /// The text that a string is. It takes no memory.
    pub fn of(plain: String) -> Self
        ensures { result ≡ string_bytes plain }
    {
        Text { plain }
    }

    /// A copy of this text.
    pub fn from_str(alloc: Global, text: &str) -> Result<Self, AllocError>
        ensures { IfOk result (λ copy. copy ≡ text.now) }
    {
        Ok(Text {
            plain: String::from_str(alloc, text)?,
        })
    }

    /// Lends the string.
    pub fn get(&self) -> &str
        ensures { result.now ≡ self.now }
    {
        self.plain.as_str()
    }

    /// The string again. It takes no memory.
    pub fn into_plain(self) -> String
        ensures { string_bytes result ≡ self }
    {
        let Text { plain } = self;
        plain
    }
}

impl PartialEq for Text {
    ghost eq = { pointwise nat_eq };

    ghost laws = { Cmp.partial_equiv_from_equiv nat_list_eq_equiv };

    fn eq(&self, other: &Text) -> bool {
        self.plain == other.plain
    }
}

impl Eq for Text {
    ghost laws = { nat_list_eq_equiv };
}

impl Clone for Text {
    ghost is_clone = { λ text copy. copy ≡ text };

    fn clone(&self) -> Result<Text, AllocError> {
        Ok(Text {
            plain: self.plain.clone()?,
        })
    }
}

/// The names of a stack, root first, which contracts see as the list of their bytes.
#[derive(Debug, Drop)]
pub struct Names {
    plain: Vec<String>,
}

impl Model for Names {
    ghost use Rattle.std.specs.Prelude.{List, ℕ, map, string_bytes};

    ghost Value = { List (List ℕ) };

    ghost view = { λ names. map string_bytes names.plain.items };
}

impl Names {
    /// The names that a vector holds. It takes no memory.
    pub fn of(plain: Vec<String>) -> Self
        ensures { result ≡ map string_bytes plain.items }
    {
        Names { plain }
    }

    /// Copies of these names.
    pub fn from_strs(alloc: Global, names: &[&str]) -> Result<Self, AllocError>
        ensures { IfOk result (λ copies. copies ≡ map (λ name. name.now) names.now) }
    {
        let mut plain = Vec::with_capacity(alloc, names.len())?;
        for name in names {
            plain.push(String::from_str(alloc, name)?)?;
        }
        Ok(Names { plain })
    }

    /// Lends the names.
    pub fn get(&self) -> &[String]
        ensures { map string_bytes result.now ≡ self.now }
    {
        &self.plain
    }

    /// The vector again. It takes no memory.
    pub fn into_plain(self) -> Vec<String>
        ensures { map string_bytes result.items ≡ self }
    {
        let Names { plain } = self;
        plain
    }
}

impl PartialEq for Names {
    ghost eq = { pointwise (pointwise nat_eq) };

    ghost laws = { lists_per (Cmp.partial_equiv_from_equiv nat_list_eq_equiv) };

    fn eq(&self, other: &Names) -> bool {
        self.plain == other.plain
    }
}

impl Eq for Names {
    ghost laws = { lists_equiv nat_list_eq_equiv };
}

impl Clone for Names {
    ghost is_clone = { λ names copy. copy ≡ names };

    fn clone(&self) -> Result<Names, AllocError> {
        Ok(Names {
            plain: self.plain.clone()?,
        })
    }
}

/// A list, which contracts see as its items.
#[derive(Debug, Drop)]
pub struct Listed<T> {
    plain: Vec<T>,
}

impl<T> Model for Listed<T> {
    ghost use Rattle.std.specs.Prelude.{List};

    ghost Value = { List T };

    ghost view = { λ listed. listed.plain.items };
}

impl<T> Listed<T> {
    /// The list that a vector holds. It takes no memory.
    pub fn of(plain: Vec<T>) -> Self
        ensures { result ≡ plain.items }
    {
        Listed { plain }
    }

    /// Lends the items.
    pub fn get(&self) -> &[T]
        ensures { result.now ≡ self.now }
    {
        self.plain.as_slice()
    }

    /// The vector again. It takes no memory.
    pub fn into_plain(self) -> Vec<T>
        ensures { result.items ≡ self }
    {
        let Listed { plain } = self;
        plain
    }
}

impl<T: PartialEq> PartialEq for Listed<T> {
    ghost eq = { pointwise T.eq };

    ghost laws = { lists_per T.laws };

    fn eq(&self, other: &Listed<T>) -> bool {
        self.plain == other.plain
    }
}

impl<T: Eq> Eq for Listed<T> {
    ghost laws = { lists_equiv T.Eq.laws };
}

impl<T: Clone> Clone for Listed<T> {
    ghost is_clone = { AllZip T.is_clone };

    fn clone(&self) -> Result<Listed<T>, AllocError> {
        Ok(Listed {
            plain: self.plain.clone()?,
        })
    }
}
