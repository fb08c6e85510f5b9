mod drawing;
mod drawn_lines;
mod drawn_points;
mod lines;
mod pages;
mod planted;
mod points;
mod regions;
