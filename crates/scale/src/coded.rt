use crate::lines::Lines;
use crate::mark::Mark;
use crate::scale::Coded;

impl Coded for Mark {
    ghost number = { λ m. m.value };

    fn code(self) -> u16 {
        self.value
    }
}

impl Coded for Lines {
    ghost number = { λ l. l.set };

    fn code(self) -> u16 {
        self.set
    }
}
